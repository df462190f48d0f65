//! The zones to which packets belong by bindings.
ghost use Rattle.std.specs.Prelude.{◌≡◌, ℕ, ◌≤◌, ◌<◌, ◌⊎◌, true, false, length, IfOk, OnOk};
ghost use Rattle.fw_zone_calls.specs.Active.{active, active_zones, inserted, is_behind, put};

use super::texts::{interface_texts, source_texts};
use fw_base::{Memory, Seq, Text};
use fw_model::Zone;
use fw_told::Active;
use std::alloc::Global;

/// The zones that have bindings, in ascending order of their names.
pub fn active_zones(alloc: Global, zones: &[Zone]) -> Result<Seq<Active>, Memory>
    ensures { IfOk result (λ made. made ≡ active_zones zones.now) }
{
    let mut active = Vec::new(alloc);
    for zone in zones {
        put(alloc, &mut active, zone)?;
    }
    Ok(Seq::from_vec(active))
}

/// Puts a zone that has bindings to its place.
fn put(alloc: Global, zones: &mut Vec<Active>, zone: &Zone) -> Result<(), Memory>
    ensures { OnOk result (zones.new.items ≡ put zones.old.items zone.now) }
{
    if zone.interfaces.as_slice().is_empty() && zone.sources.as_slice().is_empty() {
        return Ok(());
    }
    let active = active(alloc, zone)?;
    insert(zones, active)
}

fn insert(zones: &mut Vec<Active>, zone: Active) -> Result<(), Memory>
    ensures { OnOk result (zones.new.items ≡ inserted zone zones.old.items) }
{
    let place = place_for(zones.as_slice(), zone.name.as_str());
    zones.insert(place, zone)?;
    Ok(())
}

/// The place of the first zone that comes behind a name, or the end.
fn place_for(zones: &[Active], name: &str) -> usize
    ensures within { result ≤ length zones.now }
    ensures behind { (place : ℕ) → place < result → is_behind zones.now place name.now ≡ false }
    ensures at { (result ≡ length zones.now) ⊎ (is_behind zones.now result name.now ≡ true) }
{
    for place in 0..zones.len() {
        if is_behind(zones, place, name) {
            return place;
        }
    }
    zones.len()
}

/// Whether the zone at a place comes behind a name.
fn is_behind(zones: &[Active], place: usize, name: &str) -> bool
    ensures { result ≡ is_behind zones.now place name.now }
{
    match zones.get(place) {
        Some(listed) => name < listed.name.as_str(),
        None => false,
    }
}

/// A zone's interfaces and sources as texts.
fn active(alloc: Global, zone: &Zone) -> Result<Active, Memory>
    ensures { IfOk result (λ made. made ≡ active zone.now) }
{
    Ok(Active {
        name: Text::of(alloc, zone.name.as_str())?,
        interfaces: interface_texts(alloc, zone.interfaces.as_slice())?,
        sources: source_texts(alloc, zone.sources.as_slice())?,
    })
}
