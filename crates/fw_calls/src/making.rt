//! The call that a member and its arguments make.
ghost use Rattle.std.specs.Prelude.{◌≡◌, None, Some, MatchOption};
ghost use Rattle.fw_calls.specs.Making.{call_of, config_call_of, config_policy_call_of, config_zone_call_of, ipset_call_of, object_call_of, policy_call_of, root_call_of, setting_verb, setting_words, zone_call_of};

use super::arguments::Arguments;
use super::{
    Argument, BindingWord, Call, ConfigCall, ConfigMember, IpsetCall, IpsetMember, Member,
    ObjectCall, ObjectMember, PolicyCall, PolicyMember, RootCall, RootMember, SettingKind,
    SettingVerb, SettingWords, Verb, ZoneCall, ZoneMember,
};
use fw_base::Seq;

/// The call of a member with these arguments, of which the first is the object's number for a member of a config object. It takes no
/// memory.
///
/// There is none where the arguments aren't of the member's types.
#[tactic(auto, unfolding(crate::specs::Making::call_of))]
pub fn make_call(member: Member, arguments: Seq<Argument>) -> Option<Call>
    ensures { result ≡ call_of member arguments }
{
    let arguments = Arguments::of(arguments);
    match member {
        Member::Zone(member) => zone_call(member, arguments),
        Member::Policy(member) => policy_call(member, arguments),
        Member::Ipset(member) => ipset_call(member, arguments),
        Member::Root(member) => root_call(member, arguments),
        Member::Config(member) => config_call(member, arguments),
        Member::ConfigZone(member) => config_zone_call(member, arguments),
        Member::ConfigPolicy(member) => config_policy_call(member, arguments),
    }
}

#[tactic(auto, unfolding(crate::specs::Making::zone_call_of))]
fn zone_call(member: ZoneMember, mut arguments: Arguments) -> Option<Call>
    ensures { result ≡ zone_call_of member arguments }
{
    match member {
        ZoneMember::Setting(verb, kind) => {
            let zone = arguments.text()?;
            let setting = setting_words(kind, &mut arguments)?;
            let verb = setting_verb(verb, &mut arguments)?;
            arguments.end(Call::Zone(ZoneCall::Setting {
                verb,
                zone,
                setting,
            }))
        }
        ZoneMember::Inversion(verb) => {
            let zone = arguments.text()?;
            arguments.end(Call::Zone(ZoneCall::Inversion { verb, zone }))
        }
        ZoneMember::Binding(verb, kind) => {
            let zone = arguments.text()?;
            let text = arguments.text()?;
            arguments.end(Call::Zone(ZoneCall::Binding {
                verb,
                zone,
                binding: BindingWord { kind, text },
            }))
        }
        ZoneMember::ZoneOf(kind) => {
            let text = arguments.text()?;
            arguments.end(Call::Zone(ZoneCall::ZoneOf {
                binding: BindingWord { kind, text },
            }))
        }
        ZoneMember::Zones => arguments.end(Call::Zone(ZoneCall::Zones)),
        ZoneMember::ActiveZones => arguments.end(Call::Zone(ZoneCall::ActiveZones)),
        ZoneMember::Settings => {
            let zone = arguments.text()?;
            arguments.end(Call::Zone(ZoneCall::Settings { zone }))
        }
        ZoneMember::SetSettings => {
            let zone = arguments.text()?;
            let settings = arguments.dict()?;
            arguments.end(Call::Zone(ZoneCall::SetSettings { zone, settings }))
        }
    }
}

/// The words that name a setting.
fn setting_words(kind: SettingKind, arguments: &mut Arguments) -> Option<SettingWords>
    ensures { MatchOption result (setting_words kind arguments.old ≡ None) (λ found. setting_words kind arguments.old ≡ Some (found, arguments.new)) }
{
    match kind {
        SettingKind::Service => Some(SettingWords::Service {
            name: arguments.text()?,
        }),
        SettingKind::Port => Some(SettingWords::Port {
            port: arguments.text()?,
            protocol: arguments.text()?,
        }),
        SettingKind::SourcePort => Some(SettingWords::SourcePort {
            port: arguments.text()?,
            protocol: arguments.text()?,
        }),
        SettingKind::Protocol => Some(SettingWords::Protocol {
            protocol: arguments.text()?,
        }),
        SettingKind::IcmpBlock => Some(SettingWords::IcmpBlock {
            name: arguments.text()?,
        }),
        SettingKind::Masquerade => Some(SettingWords::Masquerade),
        SettingKind::ForwardPort => Some(SettingWords::ForwardPort {
            port: arguments.text()?,
            protocol: arguments.text()?,
            to_port: arguments.text()?,
            to_address: arguments.text()?,
        }),
        SettingKind::RichRule => Some(SettingWords::RichRule {
            rule: arguments.text()?,
        }),
    }
}

/// What is done with a setting, with the timeout of one that is added.
fn setting_verb(verb: Verb, arguments: &mut Arguments) -> Option<SettingVerb>
    ensures { MatchOption result (setting_verb verb arguments.old ≡ None) (λ found. setting_verb verb arguments.old ≡ Some (found, arguments.new)) }
{
    match verb {
        Verb::Add => Some(SettingVerb::Add {
            timeout: arguments.int()?,
        }),
        Verb::Remove => Some(SettingVerb::Remove),
        Verb::Query => Some(SettingVerb::Query),
    }
}

#[tactic(auto, unfolding(crate::specs::Making::policy_call_of))]
fn policy_call(member: PolicyMember, mut arguments: Arguments) -> Option<Call>
    ensures { result ≡ policy_call_of member arguments }
{
    match member {
        PolicyMember::Policies => arguments.end(Call::Policy(PolicyCall::Policies)),
        PolicyMember::ActivePolicies => arguments.end(Call::Policy(PolicyCall::ActivePolicies)),
        PolicyMember::Settings => {
            let policy = arguments.text()?;
            arguments.end(Call::Policy(PolicyCall::Settings { policy }))
        }
        PolicyMember::SetSettings => {
            let policy = arguments.text()?;
            let settings = arguments.dict()?;
            arguments.end(Call::Policy(PolicyCall::SetSettings { policy, settings }))
        }
    }
}

#[tactic(auto, unfolding(crate::specs::Making::ipset_call_of))]
fn ipset_call(member: IpsetMember, mut arguments: Arguments) -> Option<Call>
    ensures { result ≡ ipset_call_of member arguments }
{
    match member {
        IpsetMember::Ipsets => arguments.end(Call::Ipset(IpsetCall::Ipsets)),
        IpsetMember::HasIpset => {
            let ipset = arguments.text()?;
            arguments.end(Call::Ipset(IpsetCall::HasIpset { ipset }))
        }
        IpsetMember::Entry(verb) => {
            let ipset = arguments.text()?;
            let entry = arguments.text()?;
            arguments.end(Call::Ipset(IpsetCall::Entry { verb, ipset, entry }))
        }
        IpsetMember::Entries => {
            let ipset = arguments.text()?;
            arguments.end(Call::Ipset(IpsetCall::Entries { ipset }))
        }
        IpsetMember::SetEntries => {
            let ipset = arguments.text()?;
            let entries = arguments.texts()?;
            arguments.end(Call::Ipset(IpsetCall::SetEntries { ipset, entries }))
        }
    }
}

#[tactic(auto, unfolding(crate::specs::Making::root_call_of))]
fn root_call(member: RootMember, mut arguments: Arguments) -> Option<Call>
    ensures { result ≡ root_call_of member arguments }
{
    match member {
        RootMember::DefaultZone => arguments.end(Call::Root(RootCall::DefaultZone)),
        RootMember::SetDefaultZone => {
            let zone = arguments.text()?;
            arguments.end(Call::Root(RootCall::SetDefaultZone { zone }))
        }
        RootMember::LogDenied => arguments.end(Call::Root(RootCall::LogDenied)),
        RootMember::SetLogDenied => {
            let value = arguments.text()?;
            arguments.end(Call::Root(RootCall::SetLogDenied { value }))
        }
        RootMember::PanicMode => arguments.end(Call::Root(RootCall::PanicMode)),
        RootMember::EnablePanicMode => arguments.end(Call::Root(RootCall::EnablePanicMode)),
        RootMember::DisablePanicMode => arguments.end(Call::Root(RootCall::DisablePanicMode)),
        RootMember::Services => arguments.end(Call::Root(RootCall::Services)),
        RootMember::Reload => arguments.end(Call::Root(RootCall::Reload)),
        RootMember::CompleteReload => arguments.end(Call::Root(RootCall::CompleteReload)),
        RootMember::RuntimeToPermanent => arguments.end(Call::Root(RootCall::RuntimeToPermanent)),
    }
}

#[tactic(auto, unfolding(crate::specs::Making::config_call_of))]
fn config_call(member: ConfigMember, mut arguments: Arguments) -> Option<Call>
    ensures { result ≡ config_call_of member arguments }
{
    match member {
        ConfigMember::ZoneNames => arguments.end(Call::Config(ConfigCall::ZoneNames)),
        ConfigMember::PolicyNames => arguments.end(Call::Config(ConfigCall::PolicyNames)),
        ConfigMember::ZoneByName => {
            let zone = arguments.text()?;
            arguments.end(Call::Config(ConfigCall::ZoneByName { zone }))
        }
        ConfigMember::PolicyByName => {
            let policy = arguments.text()?;
            arguments.end(Call::Config(ConfigCall::PolicyByName { policy }))
        }
        ConfigMember::AddZone => {
            let name = arguments.text()?;
            let settings = arguments.dict()?;
            arguments.end(Call::Config(ConfigCall::AddZone { name, settings }))
        }
        ConfigMember::AddPolicy => {
            let name = arguments.text()?;
            let settings = arguments.dict()?;
            arguments.end(Call::Config(ConfigCall::AddPolicy { name, settings }))
        }
    }
}

#[tactic(auto, unfolding(crate::specs::Making::object_call_of))]
fn object_call(member: ObjectMember, mut arguments: Arguments) -> Option<ObjectCall>
    ensures { result ≡ object_call_of member arguments }
{
    match member {
        ObjectMember::Settings => arguments.end(ObjectCall::Settings),
        ObjectMember::Update => {
            let settings = arguments.dict()?;
            arguments.end(ObjectCall::Update { settings })
        }
        ObjectMember::Remove => arguments.end(ObjectCall::Remove),
    }
}

fn config_zone_call(member: ObjectMember, mut arguments: Arguments) -> Option<Call>
    ensures { result ≡ config_zone_call_of member arguments }
{
    let number = arguments.number()?;
    let call = object_call(member, arguments)?;
    Some(Call::ConfigZone { number, call })
}

fn config_policy_call(member: ObjectMember, mut arguments: Arguments) -> Option<Call>
    ensures { result ≡ config_policy_call_of member arguments }
{
    let number = arguments.number()?;
    let call = object_call(member, arguments)?;
    Some(Call::ConfigPolicy { number, call })
}
