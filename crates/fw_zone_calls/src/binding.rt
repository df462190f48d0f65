//! Calls that bind interfaces and sources to zones.
ghost use Rattle.std.specs.Prelude.{◌≡◌, find, IfOk};
ghost use Rattle.std.specs.Option.{option_copied};
ghost use Rattle.fw_zone_calls.specs.Calls.{added_kind, binding_call, change_zone_call, entry_signal, moved_kind, removed_kind, zone_of_call};
ghost use Rattle.fw_zone_calls.specs.Entries.{holder, lists};
ghost use Rattle.fw_answer.specs.Refusals.{Answers, Tells};
ghost use Rattle.fw_zone_calls.specs.Told.{told_of};

use super::bound::{bind, move_to, unbind};
use super::entry::{Entry, read_entry};
use super::told::{told_of, zone_values};
use super::zones::find_zone;
use fw_answer::{Answer, EditError, Stop, refuse, value_answer};
use fw_base::{Memory, Text};
use fw_call::{BindingWord, Verb};
use fw_model::{Config, Zone};
use fw_told::{Signal, SignalKind, Value};
use std::alloc::Global;

/// A call that binds, unbinds or asks for an interface or a source.
pub fn binding_call(
    alloc: Global,
    config: &mut Config,
    verb: Verb,
    zone: &str,
    word: &BindingWord,
) -> Result<Answer, Stop>
    ensures { Answers config.old config.new result (binding_call config.old verb zone.now word.now) }
{
    match verb {
        Verb::Add => add_binding(alloc, config, zone, word),
        Verb::Remove => remove_binding(alloc, config, zone, word),
        Verb::Query => query_binding(alloc, config, zone, word),
    }
}

fn add_binding(
    alloc: Global,
    config: &mut Config,
    zone: &str,
    word: &BindingWord,
) -> Result<Answer, Stop>
    ensures { Answers config.old config.new result (binding_call config.old Verb.Add zone.now word.now) }
{
    let found = find_zone(alloc, config, zone)?;
    let entry = read_entry(alloc, config.ipsets.as_slice(), word)?;
    let told = entry_told(alloc, found.zone.name.as_str(), added_kind(&entry), &entry)?;
    let place = found.place;
    match bind(&mut config.zones, place, entry) {
        Ok(()) => Ok(told),
        Err(EditError::Refused(code)) => {
            Err(Stop::Refused(refuse(alloc, code, word.text.as_str())?))
        }
        Err(EditError::Memory) => Err(Stop::Memory),
    }
}

fn remove_binding(
    alloc: Global,
    config: &mut Config,
    zone: &str,
    word: &BindingWord,
) -> Result<Answer, Stop>
    ensures { Answers config.old config.new result (binding_call config.old Verb.Remove zone.now word.now) }
{
    let found = find_zone(alloc, config, zone)?;
    let entry = read_entry(alloc, config.ipsets.as_slice(), word)?;
    let told = entry_told(
        alloc,
        found.zone.name.as_str(),
        removed_kind(&entry),
        &entry,
    )?;
    let place = found.place;
    match unbind(&mut config.zones, place, &entry) {
        Ok(()) => Ok(told),
        Err(EditError::Refused(code)) => {
            Err(Stop::Refused(refuse(alloc, code, word.text.as_str())?))
        }
        Err(EditError::Memory) => Err(Stop::Memory),
    }
}

fn query_binding(
    alloc: Global,
    config: &Config,
    zone: &str,
    word: &BindingWord,
) -> Result<Answer, Stop>
    ensures { Tells config.now result (binding_call config.now Verb.Query zone.now word.now) }
{
    let found = find_zone(alloc, config, zone)?;
    let entry = read_entry(alloc, config.ipsets.as_slice(), word)?;
    let is_listed = entry.is_listed(found.zone);
    Ok(value_answer(alloc, Value::Bool(is_listed))?)
}

/// A call that binds an interface or a source to a zone, whichever had it.
pub fn change_zone_call(
    alloc: Global,
    config: &mut Config,
    zone: &str,
    word: &BindingWord,
) -> Result<Answer, Stop>
    ensures { Answers config.old config.new result (change_zone_call config.old zone.now word.now) }
{
    let found = find_zone(alloc, config, zone)?;
    let entry = read_entry(alloc, config.ipsets.as_slice(), word)?;
    let told = entry_told(alloc, found.zone.name.as_str(), moved_kind(&entry), &entry)?;
    let place = found.place;
    match move_to(&mut config.zones, place, entry) {
        Ok(()) => Ok(told),
        Err(_) => Err(Stop::Memory),
    }
}

/// A call that asks for the zone that has an interface or a source.
pub fn zone_of_call(alloc: Global, config: &Config, word: &BindingWord) -> Result<Answer, Stop>
    ensures { Tells config.now result (zone_of_call config.now word.now) }
{
    let entry = read_entry(alloc, config.ipsets.as_slice(), word)?;
    let name = Text::of(alloc, holder_of(config.zones.as_slice(), &entry))?;
    Ok(value_answer(alloc, Value::Text(name))?)
}

/// The name of the first zone that lists an entry, or an empty text.
fn holder_of<'a>(zones: &'a [Zone], entry: &Entry) -> &'a str
    ensures { result.now ≡ holder (find (lists entry.now) zones.now) }
{
    match first_holder(zones, entry) {
        Some(zone) => zone.name.as_str(),
        None => "",
    }
}

/// The first zone that lists an entry.
fn first_holder<'a>(zones: &'a [Zone], entry: &Entry) -> Option<&'a Zone>
    ensures { option_copied result ≡ find (lists entry.now) zones.now }
{
    zones.iter().find(|zone| entry.is_listed(zone))
}

/// A signal with the zone's name and an entry, and the zone's name in reply.
fn entry_told(alloc: Global, zone: &str, kind: SignalKind, entry: &Entry) -> Result<Answer, Memory>
    ensures { IfOk result (λ answer. answer ≡ told_of zone.now (entry_signal kind zone.now entry.now)) }
{
    let mut values = zone_values(alloc, zone)?;
    values.push(Value::Text(entry.text(alloc)?))?;
    told_of(alloc, zone, Signal { kind, values })
}

fn added_kind(entry: &Entry) -> SignalKind
    ensures { result ≡ added_kind entry.now }
{
    match entry {
        Entry::Interface(_) => SignalKind::ZoneInterfaceAdded,
        Entry::Source(_) => SignalKind::ZoneSourceAdded,
    }
}

fn removed_kind(entry: &Entry) -> SignalKind
    ensures { result ≡ removed_kind entry.now }
{
    match entry {
        Entry::Interface(_) => SignalKind::ZoneInterfaceRemoved,
        Entry::Source(_) => SignalKind::ZoneSourceRemoved,
    }
}

fn moved_kind(entry: &Entry) -> SignalKind
    ensures { result ≡ moved_kind entry.now }
{
    match entry {
        Entry::Interface(_) => SignalKind::ZoneOfInterfaceChanged,
        Entry::Source(_) => SignalKind::ZoneOfSourceChanged,
    }
}
