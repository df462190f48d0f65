//! Members on ipsets.
ghost use Rattle.std.specs.Prelude.{◌≡◌, false, Ok, MatchOption, MatchResult, OnErr};
ghost use Rattle.fw_act.specs.Acts.{Acts, Stops};
ghost use Rattle.fw_calls.specs.declared.call.IpsetCall.TheVariants as calls;
ghost use Rattle.fw_ipset_members.specs.Entries.{entry_call, set_entries};
ghost use Rattle.fw_calls.specs.declared.member.Verb.TheVariants as verbs;
ghost use Rattle.fw_ipset_members.specs.Members.{asks, in_set, ipset_member};

use super::entries::{entry_call, query_entry};
use super::find::{find_set, has_set};
use super::items::read_entry;
use super::replace::set_entries;
use super::texts::{item_texts, set_names};
use fw_act::{Answer, Stop, replied};
use fw_base::Text;
use fw_calls::{IpsetCall, Reply, Verb};
use fw_settings::Settings;
use std::alloc::Global;

/// `getIPSets`, `queryIPSet`, `addEntry`, `removeEntry`, `queryEntry`, `getEntries` and `setEntries`, on the ipsets in force.
///
/// A call on one ipset refuses an unknown one; then, but for `getEntries`, one whose entries come with a timeout, and an entry that
/// isn't of its kind and family; then one that is there already or isn't there. Nothing changes then.
#[tactic(auto, unfolding(crate::specs::Members::ipset_member))]
pub fn ipset_member(
    alloc: Global,
    settings: &mut Settings,
    call: &IpsetCall,
) -> Result<Answer, Stop>
    ensures acts { Acts settings.new result (ipset_member settings.old call.now) }
    ensures err { OnErr result (settings.new ≡ settings.old) }
{
    match call {
        IpsetCall::Ipsets => {
            let names = set_names(alloc, settings.runtime.config.ipsets.as_slice())?;
            Ok(replied(alloc, Reply::Texts(names)))
        }
        IpsetCall::HasIpset { ipset } => {
            let is_there = has_set(settings.runtime.config.ipsets.as_slice(), ipset.as_str());
            Ok(replied(alloc, Reply::Bool(is_there)))
        }
        IpsetCall::Entry { verb, ipset, entry } => {
            entry_in(alloc, settings, *verb, ipset.as_str(), entry.as_str())
        }
        IpsetCall::Entries { ipset } => entries_of(alloc, settings, ipset.as_str()),
        IpsetCall::SetEntries { ipset, entries } => {
            set_entries_in(alloc, settings, ipset.as_str(), entries.as_slice())
        }
    }
}

/// What a call only asks of the ipsets in force: `getIPSets`, `queryIPSet`, `queryEntry` and `getEntries`. None: it changes them.
///
/// Refuses as `ipset_member` does.
#[tactic(auto, unfolding(crate::specs::Members::ipset_member, crate::specs::Members::asks))]
pub fn ask_ipset(
    alloc: Global,
    settings: &Settings,
    call: &IpsetCall,
) -> Result<Option<Answer>, Stop>
    ensures { MatchResult result
        (λ told. MatchOption told (asks call.now ≡ false)
        (λ answer. ipset_member settings.entry.now call.now ≡ Ok (record { signals = answer.signals; reply = answer.reply; after = settings.entry.now })))
        (λ stop. Stops stop (ipset_member settings.entry.now call.now)) }
{
    match call {
        IpsetCall::Ipsets => {
            let names = set_names(alloc, settings.runtime.config.ipsets.as_slice())?;
            Ok(Some(replied(alloc, Reply::Texts(names))))
        }
        IpsetCall::HasIpset { ipset } => {
            let is_there = has_set(settings.runtime.config.ipsets.as_slice(), ipset.as_str());
            Ok(Some(replied(alloc, Reply::Bool(is_there))))
        }
        IpsetCall::Entry { verb, ipset, entry } => {
            ask_entry(alloc, settings, *verb, ipset.as_str(), entry.as_str())
        }
        IpsetCall::Entries { ipset } => Ok(Some(entries_of(alloc, settings, ipset.as_str())?)),
        IpsetCall::SetEntries { .. } => Ok(None),
    }
}

/// Whether an ipset has an entry. None: the call doesn't ask for it.
#[tactic(auto, unfolding(crate::specs::Members::asks))]
fn ask_entry(
    alloc: Global,
    settings: &Settings,
    verb: Verb,
    name: &str,
    text: &str,
) -> Result<Option<Answer>, Stop>
    ensures { MatchResult result
        (λ told. MatchOption told (asks (calls.Entry verb name.now text.now) ≡ false)
        (λ answer. in_set settings.entry.now name.now (entry_call verb text.now) ≡ Ok (record { signals = answer.signals; reply = answer.reply; after = settings.entry.now })))
        (λ stop. Stops stop (in_set settings.entry.now name.now (entry_call verb text.now))) }
{
    match verb {
        Verb::Query => Ok(Some(query_entry_in(alloc, settings, name, text)?)),
        Verb::Add | Verb::Remove => Ok(None),
    }
}

#[tactic(auto, unfolding(crate::specs::Members::in_set))]
fn query_entry_in(
    alloc: Global,
    settings: &Settings,
    name: &str,
    text: &str,
) -> Result<Answer, Stop>
    ensures { Acts settings.entry.now result (in_set settings.entry.now name.now (entry_call verbs.Query text.now)) }
{
    let found = find_set(alloc, &settings.runtime.config, name)?;
    let item = read_entry(alloc, found.set, text)?;
    Ok(query_entry(alloc, found.set, &item))
}

#[tactic(auto, unfolding(crate::specs::Members::in_set))]
fn entry_in(
    alloc: Global,
    settings: &mut Settings,
    verb: Verb,
    name: &str,
    text: &str,
) -> Result<Answer, Stop>
    ensures acts { Acts settings.new result (in_set settings.old name.now (entry_call verb text.now)) }
    ensures err { OnErr result (settings.new ≡ settings.old) }
{
    let found = find_set(alloc, &settings.runtime.config, name)?;
    let place = found.place;
    entry_call(
        alloc,
        settings.runtime.config.ipsets.get_mut(place),
        verb,
        text,
    )
}

#[tactic(auto, unfolding(crate::specs::Members::in_set))]
fn set_entries_in(
    alloc: Global,
    settings: &mut Settings,
    name: &str,
    texts: &[Text],
) -> Result<Answer, Stop>
    ensures acts { Acts settings.new result (in_set settings.old name.now (set_entries texts.now)) }
    ensures err { OnErr result (settings.new ≡ settings.old) }
{
    let found = find_set(alloc, &settings.runtime.config, name)?;
    let place = found.place;
    set_entries(alloc, settings.runtime.config.ipsets.get_mut(place), texts)
}

/// The entries of an ipset, also of one whose entries come with a timeout.
#[tactic(auto, unfolding(crate::specs::Members::ipset_member))]
fn entries_of(alloc: Global, settings: &Settings, name: &str) -> Result<Answer, Stop>
    ensures { Acts settings.entry.now result (ipset_member settings.entry.now (calls.Entries name.now)) }
{
    let found = find_set(alloc, &settings.runtime.config, name)?;
    let texts = item_texts(alloc, found.set.items.as_slice())?;
    Ok(replied(alloc, Reply::Texts(texts)))
}
