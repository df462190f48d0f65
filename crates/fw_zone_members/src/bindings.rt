//! Members that bind interfaces and sources to zones.
ghost use Rattle.std.specs.Prelude.{◌≡◌, find, OnErr};
ghost use Rattle.std.specs.Option.{option_copied};
ghost use Rattle.fw_act.specs.Acts.{Acts};
ghost use Rattle.fw_zone_edits.specs.Entries.{holder, lists};
ghost use Rattle.fw_zone_members.specs.Bindings.{add_binding, binding_member, change_binding, query_binding, remove_binding, zone_of_member};

use super::edits::{bind_at, move_at, unbind_at};
use super::entry::read_entry;
use super::reading::find_zone;
use super::told::{answer_after, told_of};
use fw_act::{Answer, Stop, replied};
use fw_base::Text;
use fw_calls::{BindingVerb, BindingWord, Reply};
use fw_model::Zone;
use fw_settings::Settings;
use fw_zone_edits::{Entry, bound_kind, entry_signal, moved_kind, unbound_kind};
use std::alloc::Global;

/// `addInterface`, `removeInterface`, `queryInterface`, `changeZoneOfInterface` and the same of sources.
///
/// Refuses an unknown zone, an argument, and an entry that this zone or another lists already, or that it doesn't list; nothing changes
/// then. An empty zone is the default zone.
pub fn binding_member(
    alloc: Global,
    settings: &mut Settings,
    verb: BindingVerb,
    zone: &str,
    word: &BindingWord,
) -> Result<Answer, Stop>
    ensures acts { Acts settings.new result (binding_member settings.old verb zone.now word.now) }
    ensures err { OnErr result (settings.new ≡ settings.old) }
{
    match verb {
        BindingVerb::Add => add_binding(alloc, settings, zone, word),
        BindingVerb::Remove => remove_binding(alloc, settings, zone, word),
        BindingVerb::Query => query_binding(alloc, settings, zone, word),
        BindingVerb::Change => change_binding(alloc, settings, zone, word),
    }
}

#[tactic(auto, unfolding(crate::specs::Bindings::add_binding))]
fn add_binding(
    alloc: Global,
    settings: &mut Settings,
    zone: &str,
    word: &BindingWord,
) -> Result<Answer, Stop>
    ensures acts { Acts settings.new result (add_binding settings.old zone.now word.now) }
    ensures err { OnErr result (settings.new ≡ settings.old) }
{
    let config = &settings.runtime.config;
    let found = find_zone(alloc, config, zone)?;
    let entry = read_entry(alloc, config.ipsets.as_slice(), word)?;
    let name = found.zone.name.as_str();
    let signal = entry_signal(alloc, bound_kind(&entry), name, &entry)?;
    let answer = told_of(alloc, name, signal)?;
    let place = found.place;
    let zones = &mut settings.runtime.config.zones;
    let bound = bind_at(alloc, zones, place, entry, word.text.as_str());
    answer_after(bound, answer)
}

#[tactic(auto, unfolding(crate::specs::Bindings::remove_binding))]
fn remove_binding(
    alloc: Global,
    settings: &mut Settings,
    zone: &str,
    word: &BindingWord,
) -> Result<Answer, Stop>
    ensures acts { Acts settings.new result (remove_binding settings.old zone.now word.now) }
    ensures err { OnErr result (settings.new ≡ settings.old) }
{
    let config = &settings.runtime.config;
    let found = find_zone(alloc, config, zone)?;
    let entry = read_entry(alloc, config.ipsets.as_slice(), word)?;
    let name = found.zone.name.as_str();
    let signal = entry_signal(alloc, unbound_kind(&entry), name, &entry)?;
    let answer = told_of(alloc, name, signal)?;
    let place = found.place;
    let zones = &mut settings.runtime.config.zones;
    let unbound = unbind_at(alloc, zones, place, &entry, word.text.as_str());
    answer_after(unbound, answer)
}

/// `queryInterface`, `querySource`: whether a zone has an interface or a source.
///
/// Refuses an unknown zone, and then an argument that is no interface or source. An empty zone is the default zone.
#[tactic(auto, unfolding(crate::specs::Bindings::query_binding))]
pub fn query_binding(
    alloc: Global,
    settings: &Settings,
    zone: &str,
    word: &BindingWord,
) -> Result<Answer, Stop>
    ensures { Acts settings.entry.now result (query_binding settings.entry.now zone.now word.now) }
{
    let config = &settings.runtime.config;
    let found = find_zone(alloc, config, zone)?;
    let entry = read_entry(alloc, config.ipsets.as_slice(), word)?;
    let is_listed = entry.is_listed(found.zone);
    Ok(replied(alloc, Reply::Bool(is_listed)))
}

#[tactic(auto, unfolding(crate::specs::Bindings::change_binding))]
fn change_binding(
    alloc: Global,
    settings: &mut Settings,
    zone: &str,
    word: &BindingWord,
) -> Result<Answer, Stop>
    ensures acts { Acts settings.new result (change_binding settings.old zone.now word.now) }
    ensures err { OnErr result (settings.new ≡ settings.old) }
{
    let config = &settings.runtime.config;
    let found = find_zone(alloc, config, zone)?;
    let entry = read_entry(alloc, config.ipsets.as_slice(), word)?;
    let name = found.zone.name.as_str();
    let signal = entry_signal(alloc, moved_kind(&entry), name, &entry)?;
    let answer = told_of(alloc, name, signal)?;
    let place = found.place;
    move_at(&mut settings.runtime.config.zones, place, entry)?;
    Ok(answer)
}

/// `getZoneOfInterface` and `getZoneOfSource`: the zone that has an entry, or an empty text. Refuses an argument.
#[tactic(auto, unfolding(crate::specs::Bindings::zone_of_member))]
pub fn zone_of_member(
    alloc: Global,
    settings: &Settings,
    word: &BindingWord,
) -> Result<Answer, Stop>
    ensures { Acts settings.entry.now result (zone_of_member settings.entry.now word.now) }
{
    let config = &settings.runtime.config;
    let entry = read_entry(alloc, config.ipsets.as_slice(), word)?;
    let name = Text::of(alloc, holder_of(config.zones.as_slice(), &entry))?;
    Ok(replied(alloc, Reply::Text(name)))
}

/// The name of the first zone that lists an entry, or an empty text.
fn holder_of<'a>(zones: &'a [Zone], entry: &Entry) -> &'a str
    ensures { result.now ≡ holder (find (lists entry.now) zones.now) }
{
    match first_holder(zones, entry) {
        Some(zone) => zone.name.as_str(),
        None => "",
    }
}

/// The first zone that lists an entry.
fn first_holder<'a>(zones: &'a [Zone], entry: &Entry) -> Option<&'a Zone>
    ensures { option_copied result ≡ find (lists entry.now) zones.now }
{
    zones.iter().find(|zone| entry.is_listed(zone))
}
