//! Reading what follows the word `call` and the client's number.
ghost use Rattle.fw_call.specs.Calls.{arguments, binding_call, call_of, change_zone_call, inversion_call, ipset_request, setting_call, setting_words, timeout, zone_of_call, zone_request};
ghost use Rattle.fw_words.specs.Reading.{Reads, Says, at_end};
ghost use Rattle.std.specs.Prelude.{◌≡◌, Option, Some, None, MatchResult};

use super::ipset::{
    read_entries_call, read_entry_call, read_has_ipset_call, read_set_entries_request,
};
use super::member::read_member;
use super::{
    BindingKind, BindingWord, Call, IpsetCall, Member, Request, SettingKind, SettingWords, Verb,
    ZoneCall,
};
use fw_base::Text;
use fw_words::{LineError, Words};
use std::alloc::Global;

/// What a call asks for, by the words of its line from its member's name on.
#[tactic(auto, unfolding(crate::specs::Calls::call_of))]
pub fn read_call(alloc: Global, words: &mut Words) -> Result<Request, LineError>
    ensures { Says result (call_of words.old) }
{
    let Some(member) = read_member(words.next()?) else {
        return Err(LineError::BadLine);
    };
    read_arguments(alloc, member, words)
}

#[tactic(auto, unfolding(crate::specs::Calls::arguments))]
fn read_arguments(alloc: Global, member: Member, words: &mut Words) -> Result<Request, LineError>
    ensures { Says result (arguments member words.old) }
{
    match member {
        Member::Setting(verb, kind) => on_zones(read_setting_call(alloc, verb, kind, words)),
        Member::Inversion(verb) => on_zones(read_inversion_call(alloc, verb, words)),
        Member::Binding(verb, kind) => on_zones(read_binding_call(alloc, verb, kind, words)),
        Member::ChangeZone(kind) => on_zones(read_change_zone_call(alloc, kind, words)),
        Member::ZoneOf(kind) => on_zones(read_zone_of_call(alloc, kind, words)),
        Member::Zones => on_zones(read_plain_call(ZoneCall::Zones, words)),
        Member::ActiveZones => on_zones(read_plain_call(ZoneCall::ActiveZones, words)),
        Member::DefaultZone => on_zones(read_plain_call(ZoneCall::DefaultZone, words)),
        Member::Services => on_zones(read_plain_call(ZoneCall::Services, words)),
        Member::Ipsets => on_ipsets(read_plain_call(IpsetCall::Ipsets, words)),
        Member::HasIpset => on_ipsets(read_has_ipset_call(alloc, words)),
        Member::Entry(verb) => on_ipsets(read_entry_call(alloc, verb, words)),
        Member::Entries => on_ipsets(read_entries_call(alloc, words)),
        Member::SetEntries => read_set_entries_request(alloc, words),
    }
}

/// What a call on zones asks for.
fn on_zones(read: Result<ZoneCall, LineError>) -> Result<Request, LineError>
    ensures { (said : Option ZoneCall) → Says read said → Says result (zone_request said) }
{
    match read {
        Ok(call) => Ok(Request::Call(Call::Zone(call))),
        Err(error) => Err(error),
    }
}

/// What a call on ipsets asks for.
fn on_ipsets(read: Result<IpsetCall, LineError>) -> Result<Request, LineError>
    ensures { (said : Option IpsetCall) → Says read said → Says result (ipset_request said) }
{
    match read {
        Ok(call) => Ok(Request::Call(Call::Ipset(call))),
        Err(error) => Err(error),
    }
}

/// A call without arguments.
fn read_plain_call<T: Drop>(call: T, words: &mut Words) -> Result<T, LineError>
    ensures { Says result (at_end call words.old) }
{
    words.end()?;
    Ok(call)
}

fn read_setting_call(
    alloc: Global,
    verb: Verb,
    kind: SettingKind,
    words: &mut Words,
) -> Result<ZoneCall, LineError>
    ensures { Says result (setting_call verb kind words.old) }
{
    let zone = words.next()?;
    let setting = read_setting(alloc, kind, words)?;
    read_timeout(verb, words)?;
    words.end()?;
    let zone = Text::of(alloc, zone)?;
    Ok(ZoneCall::Setting {
        verb,
        zone,
        setting,
    })
}

/// The words that name a setting.
fn read_setting(
    alloc: Global,
    kind: SettingKind,
    words: &mut Words,
) -> Result<SettingWords, LineError>
    ensures { Reads result words.new (setting_words kind words.old) }
{
    match kind {
        SettingKind::Port => {
            let port = words.next()?;
            let protocol = words.next()?;
            Ok(SettingWords::Port {
                port: Text::of(alloc, port)?,
                protocol: Text::of(alloc, protocol)?,
            })
        }
        SettingKind::SourcePort => {
            let port = words.next()?;
            let protocol = words.next()?;
            Ok(SettingWords::SourcePort {
                port: Text::of(alloc, port)?,
                protocol: Text::of(alloc, protocol)?,
            })
        }
        SettingKind::Protocol => {
            let protocol = words.next()?;
            Ok(SettingWords::Protocol {
                protocol: Text::of(alloc, protocol)?,
            })
        }
        SettingKind::IcmpBlock => {
            let name = words.next()?;
            Ok(SettingWords::IcmpBlock {
                name: Text::of(alloc, name)?,
            })
        }
        SettingKind::Service => {
            let name = words.next()?;
            Ok(SettingWords::Service {
                name: Text::of(alloc, name)?,
            })
        }
        SettingKind::RichRule => {
            let rule = words.next()?;
            Ok(SettingWords::RichRule {
                rule: Text::of(alloc, rule)?,
            })
        }
    }
}

/// The timeout, which a call that adds a setting has: 0.
fn read_timeout(verb: Verb, words: &mut Words) -> Result<(), LineError>
    ensures { MatchResult result (λ _. timeout verb words.old ≡ Some words.new) (λ error. (error ≡ LineError.BadLine) × (timeout verb words.old ≡ None)) }
{
    match verb {
        Verb::Add => {
            if words.next()? == "0" {
                Ok(())
            } else {
                Err(LineError::BadLine)
            }
        }
        Verb::Remove | Verb::Query => Ok(()),
    }
}

fn read_inversion_call(alloc: Global, verb: Verb, words: &mut Words) -> Result<ZoneCall, LineError>
    ensures { Says result (inversion_call verb words.old) }
{
    let zone = words.next()?;
    words.end()?;
    let zone = Text::of(alloc, zone)?;
    Ok(ZoneCall::Inversion { verb, zone })
}

fn read_binding_call(
    alloc: Global,
    verb: Verb,
    kind: BindingKind,
    words: &mut Words,
) -> Result<ZoneCall, LineError>
    ensures { Says result (binding_call verb kind words.old) }
{
    let zone = words.next()?;
    let text = words.next()?;
    words.end()?;
    let zone = Text::of(alloc, zone)?;
    let text = Text::of(alloc, text)?;
    Ok(ZoneCall::Binding {
        verb,
        zone,
        binding: BindingWord { kind, text },
    })
}

fn read_change_zone_call(
    alloc: Global,
    kind: BindingKind,
    words: &mut Words,
) -> Result<ZoneCall, LineError>
    ensures { Says result (change_zone_call kind words.old) }
{
    let zone = words.next()?;
    let text = words.next()?;
    words.end()?;
    let zone = Text::of(alloc, zone)?;
    let text = Text::of(alloc, text)?;
    Ok(ZoneCall::ChangeZone {
        zone,
        binding: BindingWord { kind, text },
    })
}

fn read_zone_of_call(
    alloc: Global,
    kind: BindingKind,
    words: &mut Words,
) -> Result<ZoneCall, LineError>
    ensures { Says result (zone_of_call kind words.old) }
{
    let text = words.next()?;
    words.end()?;
    let text = Text::of(alloc, text)?;
    Ok(ZoneCall::ZoneOf {
        binding: BindingWord { kind, text },
    })
}
