//! Links come and go.
ghost use Rattle.std.specs.Prelude.{◌≡◌, ◌<◌, [], find, length, position, slice_get, slice_set, true, IfOk, IfSome, MatchOption, None, OnErr, OnOk, Some};
ghost use Rattle.std.specs.List.{list_any};
ghost use Rattle.std.specs.Option.{option_copied};
ghost use Rattle.std.specs.Str.{bytes_eq};
ghost use Rattle.fw_model.specs.declared.zone.Zone.{Zone};
ghost use Rattle.fw_time_links.specs.Linking.{comes, goes, has_name, holder_of, home, is_home, link_gone, link_up, linked, some_has};
ghost use Rattle.fw_zone_edits.specs.Entries.{lists, with_entry, without_entry};
ghost use Rattle.fw_zone_edits.specs.declared.entry.Entry.TheVariants as entries;

use fw_act::{Answer, replied, told};
use fw_addr::Iface;
use fw_base::{Memory, Seq, TryCopy};
use fw_calls::{Applied, Reply, SignalKind};
use fw_model::Zone;
use fw_settings::Settings;
use fw_zone_edits::{Entry, FoundZone, entry_signal, unbind, zone_named};
use std::alloc::Global;

/// Whether a zone lists a name. Names are compared as texts.
fn has_name(name: &Iface, zone: &Zone) -> bool
    ensures { result ≡ has_name name.now zone.now }
{
    zone.interfaces.as_slice().contains(name)
}

/// Whether one of some zones lists a name.
fn some_has(name: &Iface, zones: &[Zone]) -> bool
    ensures { result ≡ some_has name.now zones.now }
{
    zones.iter().any(|zone| has_name(name, zone))
}

/// The reply of an event, whose commit isn't tried yet.
fn seen(alloc: Global) -> Answer
    ensures { result ≡ record { signals = []; reply = Reply.Event Applied.Skipped } }
{
    replied(alloc, Reply::Event(Applied::Skipped))
}

/// Whether a zone is to have a name and is among those in force.
fn is_home(in_force: &[Zone], name: &Iface, zone: &Zone) -> bool
    ensures { result ≡ is_home in_force.now name.now zone.now }
{
    has_name(name, zone) && is_called(in_force, zone.name.as_str())
}

/// Whether one of some zones has a name.
fn is_called(zones: &[Zone], name: &str) -> bool
    ensures { result ≡ list_any (λ zone. bytes_eq zone.name name.now) zones.now }
{
    zones.iter().any(|zone| zone.name.as_str() == name)
}

fn permanent_home<'a>(in_force: &[Zone], permanent: &'a [Zone], name: &Iface) -> Option<&'a Zone>
    ensures { option_copied result ≡ find (is_home in_force.now name.now) permanent.now }
{
    permanent.iter().find(|zone| is_home(in_force, name, zone))
}

/// The zone in force that is to have a name, by the permanent settings.
fn home<'a>(in_force: &'a [Zone], permanent: &[Zone], name: &Iface) -> Option<FoundZone<'a>>
    ensures found { MatchOption result (home in_force.now permanent.now name.now ≡ None)
        (λ found. home in_force.now permanent.now name.now ≡ Some (record { place = found.place; zone = found.zone.now })) }
    ensures at { IfSome result (λ found. slice_get in_force.now found.place ≡ Some found.zone.now) }
    ensures within { IfSome result (λ found. found.place < length in_force.now) }
{
    let zone = permanent_home(in_force, permanent, name)?;
    zone_named(in_force, zone.name.as_str())
}

/// A name goes to the zone at a place, the last of its interfaces.
fn enter(zones: &mut Seq<Zone>, place: usize, name: Iface) -> Result<(), Memory>
    requires { place < length zones.old }
    ensures entered { (zone : Zone) → slice_get zones.old place ≡ Some zone
        → OnOk result (zones.new ≡ slice_set zones.old place (with_entry zone (entries.Interface name))) }
    ensures err { OnErr result (zones.new ≡ zones.old) }
{
    zones.get_mut(place).interfaces.push(name)
}

/// A name that no zone in force has goes to the zone at a place.
fn come(
    alloc: Global,
    settings: &mut Settings,
    place: usize,
    name: &Iface,
) -> Result<Answer, Memory>
    requires { place < length settings.old.runtime.config.zones }
    ensures acts { (zone : Zone) → slice_get settings.old.runtime.config.zones place ≡ Some zone
        → IfOk result (λ answer. comes settings.old name.now (Some (record { place = place; zone = zone })) ≡ record { signals = answer.signals; reply = answer.reply; after = settings.new }) }
    ensures err { OnErr result (settings.new ≡ settings.old) }
{
    let zone = &settings.runtime.config.zones.as_slice()[place];
    let entry = Entry::Interface(name.copy(alloc)?);
    let signal = entry_signal(
        alloc,
        SignalKind::ZoneInterfaceAdded,
        zone.name.as_str(),
        &entry,
    )?;
    let answer = told(alloc, signal, Reply::Event(Applied::Skipped))?;
    enter(&mut settings.runtime.config.zones, place, name.copy(alloc)?)?;
    Ok(answer)
}

/// A link came up: where no zone in force has it, it goes to its home.
#[tactic(auto, unfolding(crate::specs::Linking::link_up))]
fn link_up(alloc: Global, settings: &mut Settings, name: &Iface) -> Result<Answer, Memory>
    ensures acts { IfOk result (λ answer. link_up settings.old name.now ≡ record { signals = answer.signals; reply = answer.reply; after = settings.new }) }
    ensures err { OnErr result (settings.new ≡ settings.old) }
{
    if some_has(name, settings.runtime.config.zones.as_slice()) {
        return Ok(seen(alloc));
    }
    let in_force = settings.runtime.config.zones.as_slice();
    match home(in_force, settings.permanent.zones.as_slice(), name) {
        Some(found) => {
            let place = found.place;
            come(alloc, settings, place, name)
        }
        None => Ok(seen(alloc)),
    }
}

/// The place of the first zone that has a name.
fn place_of(zones: &[Zone], name: &Iface) -> Option<usize>
    ensures { result ≡ position (has_name name.now) zones.now }
{
    zones.iter().position(|zone| has_name(name, zone))
}

/// The first zone that has a name.
fn holder_of<'a>(zones: &'a [Zone], name: &Iface) -> Option<FoundZone<'a>>
    ensures found { MatchOption result (holder_of zones.now name.now ≡ None)
        (λ found. holder_of zones.now name.now ≡ Some (record { place = found.place; zone = found.zone.now })) }
    ensures at { IfSome result (λ found. slice_get zones.now found.place ≡ Some found.zone.now) }
    ensures within { IfSome result (λ found. found.place < length zones.now) }
    ensures has { IfSome result (λ found. has_name name.now found.zone.now ≡ true) }
{
    let place = place_of(zones, name)?;
    Some(FoundZone {
        place,
        zone: &zones[place],
    })
}

/// A name that the zone at a place has leaves it.
fn leave(zones: &mut Seq<Zone>, place: usize, entry: &Entry) -> Result<(), Memory>
    requires { place < length zones.old }
    ensures left { (zone : Zone) → slice_get zones.old place ≡ Some zone
        → lists entry.now zone ≡ true
        → OnOk result (zones.new ≡ slice_set zones.old place (without_entry zone entry.now)) }
    ensures err { OnErr result (zones.new ≡ zones.old) }
{
    match unbind(zones, place, entry) {
        Ok(()) => Ok(()),
        Err(_) => Err(Memory),
    }
}

/// A name that the zone at a place has leaves it.
fn go(alloc: Global, settings: &mut Settings, place: usize, name: &Iface) -> Result<Answer, Memory>
    requires { place < length settings.old.runtime.config.zones }
    ensures acts { (zone : Zone) → slice_get settings.old.runtime.config.zones place ≡ Some zone
        → has_name name.now zone ≡ true
        → IfOk result (λ answer. goes settings.old name.now (Some (record { place = place; zone = zone })) ≡ record { signals = answer.signals; reply = answer.reply; after = settings.new }) }
    ensures err { OnErr result (settings.new ≡ settings.old) }
{
    let zone = &settings.runtime.config.zones.as_slice()[place];
    let entry = Entry::Interface(name.copy(alloc)?);
    let signal = entry_signal(
        alloc,
        SignalKind::ZoneInterfaceRemoved,
        zone.name.as_str(),
        &entry,
    )?;
    let answer = told(alloc, signal, Reply::Event(Applied::Skipped))?;
    leave(&mut settings.runtime.config.zones, place, &entry)?;
    Ok(answer)
}

/// A link went: where no permanent zone has it, it leaves its zone.
#[tactic(auto, unfolding(crate::specs::Linking::link_gone))]
fn link_gone(alloc: Global, settings: &mut Settings, name: &Iface) -> Result<Answer, Memory>
    ensures acts { IfOk result (λ answer. link_gone settings.old name.now ≡ record { signals = answer.signals; reply = answer.reply; after = settings.new }) }
    ensures err { OnErr result (settings.new ≡ settings.old) }
{
    if some_has(name, settings.permanent.zones.as_slice()) {
        return Ok(seen(alloc));
    }
    match holder_of(settings.runtime.config.zones.as_slice(), name) {
        Some(found) => {
            let place = found.place;
            go(alloc, settings, place, name)
        }
        None => Ok(seen(alloc)),
    }
}

/// A link of a name came up, or went. One that no zone in force has goes to the zone that is to have it by the permanent settings, if that
/// is in force; one that no permanent zone has leaves its zone. The reply has the result of the commit, which isn't tried yet.
///
/// Refuses for want of memory alone; nothing changes then.
pub fn link_member(
    alloc: Global,
    settings: &mut Settings,
    up: bool,
    name: &Iface,
) -> Result<Answer, Memory>
    ensures acts { IfOk result (λ answer. linked settings.old up name.now ≡ record { signals = answer.signals; reply = answer.reply; after = settings.new }) }
    ensures err { OnErr result (settings.new ≡ settings.old) }
{
    if up {
        link_up(alloc, settings, name)
    } else {
        link_gone(alloc, settings, name)
    }
}
