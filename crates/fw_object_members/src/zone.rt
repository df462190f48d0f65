//! Members on a zone of the permanent settings.
ghost use Rattle.std.specs.Prelude.{◌≡◌, ◌<◌, length, slice_set, IfOk, OnErr};
ghost use Rattle.std.specs.Fmt.{decimal};
ghost use Rattle.fw_act.specs.Acts.{Acts, Reads, required};
ghost use Rattle.std.specs.List.{list_any};
ghost use Rattle.std.specs.Str.{bytes_eq};
ghost use Rattle.fw_answer.specs.Lists.{is_in};
ghost use Rattle.fw_object_members.specs.Zones.{is_needed, names_zone, removable_zone, remove_zone_member, update_zone_member, with_zone_at, without_zone_at, zone_settings_member};

use super::built_in::is_built_in;
use super::object::{find_zone, refuse_number};
use fw_act::{Answer, Stop, replied};
use fw_base::{Seq, Text, TryCopy};
use fw_calls::{Dict, Reply};
use fw_dicts::read_zone_at;
use fw_model::{Code, Config, Policy, Zone};
use fw_settings::Settings;
use std::alloc::Global;

/// `getSettings2`: all settings of a permanent zone. Refuses a number that no zone has.
#[tactic(auto, unfolding(crate::specs::Zones::zone_settings_member))]
pub fn zone_settings_member(alloc: Global, settings: &Settings, number: u64) -> Result<Answer, Stop>
    ensures { Acts settings.entry.now result (zone_settings_member settings.entry.now number) }
{
    let found = find_zone(alloc, settings, number)?;
    let zone = found.zone.copy(alloc)?;
    Ok(replied(alloc, Reply::ZoneSettings(zone)))
}

/// `update2`: a dict makes another zone of a permanent zone, which keeps its name, its place and its number; there is no signal.
///
/// Refuses a number that no zone has, and what `read_zone` refuses; nothing changes then.
#[tactic(auto, unfolding(crate::specs::Zones::update_zone_member))]
pub fn update_zone_member(
    alloc: Global,
    settings: &mut Settings,
    number: u64,
    dict: &Dict,
) -> Result<Answer, Stop>
    ensures acts { Acts settings.new result (update_zone_member settings.old number dict.now) }
    ensures err { OnErr result (settings.new ≡ settings.old) }
{
    let found = find_zone(alloc, settings, number)?;
    let place = found.place;
    let zone = read_zone_at(alloc, &settings.permanent, place, found.zone, dict)?;
    put_zone(settings, place, zone);
    Ok(replied(alloc, Reply::None))
}

/// `remove`: a zone goes from the permanent settings, with its number, which isn't given again; there is no signal.
///
/// Refuses, in this order, a number that no zone has, a zone whose name a built-in zone has, and the default zone and one that a policy
/// names, each of them permanent; nothing changes then.
#[tactic(auto, unfolding(crate::specs::Zones::remove_zone_member))]
pub fn remove_zone_member(
    alloc: Global,
    settings: &mut Settings,
    number: u64,
) -> Result<Answer, Stop>
    ensures acts { Acts settings.new result (remove_zone_member settings.old number) }
    ensures err { OnErr result (settings.new ≡ settings.old) }
{
    let place = removable_zone(alloc, settings, number)?;
    remove_zone(settings, place);
    Ok(replied(alloc, Reply::None))
}

/// The place of the zone with a number, which may be removed.
#[tactic(auto, unfolding(crate::specs::Zones::removable_zone))]
fn removable_zone(alloc: Global, settings: &Settings, number: u64) -> Result<usize, Stop>
    ensures reads { Reads result (removable_zone settings.entry.now number) }
    ensures within { IfOk result (λ place. place < length settings.entry.now.permanent.zones) }
    ensures numbered { IfOk result (λ place. place < length settings.entry.now.zone_ids) }
{
    let found = find_zone(alloc, settings, number)?;
    let name = found.zone.name.as_str();
    require(alloc, !is_built_in(name), Code::BuiltinZone, number)?;
    require(
        alloc,
        !is_needed(&settings.permanent, name),
        Code::InvalidZone,
        number,
    )?;
    Ok(found.place)
}

/// Refuses an object by its number where a test of it doesn't hold.
fn require(alloc: Global, holds: bool, code: Code, number: u64) -> Result<(), Stop>
    ensures { Reads result (required holds code (decimal number)) }
{
    if holds {
        Ok(())
    } else {
        Err(Stop::Refused(refuse_number(alloc, code, number)?))
    }
}

/// Whether a zone is the default zone, or a policy names it.
#[tactic(auto, unfolding(crate::specs::Zones::is_needed))]
fn is_needed(config: &Config, name: &str) -> bool
    ensures { result ≡ is_needed config.now name.now }
{
    config.default_zone.as_str() == name || is_named(config.policies.as_slice(), name)
}

/// Whether one of some policies names a zone.
fn is_named(policies: &[Policy], name: &str) -> bool
    ensures { result ≡ list_any (names_zone name.now) policies.now }
{
    policies.iter().any(|policy| names_zone(name, policy))
}

/// Whether a policy names a zone, on either side.
fn names_zone(name: &str, policy: &Policy) -> bool
    ensures { result ≡ names_zone name.now policy.now }
{
    is_listed(name, policy.ingress.as_slice()) || is_listed(name, policy.egress.as_slice())
}

fn is_listed(name: &str, names: &[Text]) -> bool
    ensures { result ≡ is_in bytes_eq name.now names.now }
{
    names.iter().any(|listed| listed.as_str() == name)
}

/// Another zone at a place.
#[tactic(auto, unfolding(crate::specs::Zones::with_zone_at))]
fn put_zone(settings: &mut Settings, place: usize, zone: Zone)
    requires { place < length settings.old.permanent.zones }
    ensures { settings.new ≡ with_zone_at settings.old place zone }
{
    put(&mut settings.permanent.zones, place, zone);
}

fn put(zones: &mut Seq<Zone>, place: usize, zone: Zone)
    requires { place < length zones.old }
    ensures { zones.new ≡ slice_set zones.old place zone }
{
    *zones.get_mut(place) = zone;
}

/// Takes out the zone at a place, and its number.
#[tactic(auto, unfolding(crate::specs::Zones::without_zone_at))]
fn remove_zone(settings: &mut Settings, place: usize)
    requires within { place < length settings.old.permanent.zones }
    requires numbered { place < length settings.old.zone_ids }
    ensures { settings.new ≡ without_zone_at settings.old place }
{
    let _ = settings.permanent.zones.remove(place);
    let _ = settings.zone_ids.remove(place);
}
