//! Which interface entry decides about a name.
ghost use Rattle.std.specs.Prelude.{◌≡◌, List, ◌++◌, Some};
ghost use Rattle.std.specs.Option.{option_copied, option_map};
ghost use Rattle.fw_addr.specs.Interfaces.{before_plus};
ghost use Rattle.fw_hits.specs.Founds.{entry_of};
ghost use Rattle.fw_hits.specs.Bindings.{Entry, earlier, entries_for, entry_order, first_by, interface_zone, prefix_order, zone_order};

use fw_addr::Iface;
use fw_model::{Config, Zone};
use std::cmp::Ordering;

/// An interface entry and the zone that lists it.
#[derive(Clone, Copy)]
pub struct Found<'a> {
    pub zone: &'a Zone,
    pub iface: &'a Iface,
}

/// What is before the `+` of an entry that stands for many names.
fn before_plus(entry: &[u8]) -> Option<&[u8]>
    ensures { option_copied result ≡ before_plus entry.now }
{
    entry.strip_suffix(b"+")
}

/// Of entries that stand for one name an exact one comes first, then the one with the longer prefix.
fn prefix_order(one: &Iface, other: &Iface) -> Ordering
    ensures { result ≡ prefix_order (before_plus one.now) (before_plus other.now) }
{
    let front = before_plus(one.as_str().as_bytes());
    match before_plus(other.as_str().as_bytes()) {
        None => match front {
            None => Ordering::Equal,
            Some(_) => Ordering::Greater,
        },
        Some(longer) => match front {
            None => Ordering::Less,
            Some(front) => longer.len().cmp(&front.len()),
        },
    }
}

/// Zones by their names, in byte order.
pub fn zone_order(one: &Zone, other: &Zone) -> Ordering
    ensures { result ≡ zone_order one.now other.now }
{
    one.name.as_str().cmp(&other.name.as_str())
}

fn entry_order(one: Found<'_>, other: Found<'_>) -> Ordering
    ensures { result ≡ entry_order (entry_of one.entry) (entry_of other.entry) }
{
    match prefix_order(one.iface, other.iface) {
        Ordering::Equal => zone_order(one.zone, other.zone),
        decided => decided,
    }
}

fn earlier<'a>(found: Found<'a>, behind: Option<Found<'a>>) -> Found<'a>
    ensures { Some (entry_of result) ≡ earlier entry_order (entry_of found.entry) (option_map entry_of behind.entry) }
{
    match behind {
        None => found,
        Some(other) => {
            if entry_order(found, other).is_gt() {
                other
            } else {
                found
            }
        }
    }
}

/// The first of a zone's entries for a name and of what was found in the zones behind it.
fn first_in<'a>(zone: &'a Zone, name: &str, behind: Option<Found<'a>>) -> Option<Found<'a>>
    ensures { (others : List Entry) → option_map entry_of behind.entry ≡ first_by entry_order others → option_map entry_of result ≡ first_by entry_order (entries_for name.now zone.now ++ others) }
{
    let interfaces = zone.interfaces.as_slice();
    let mut first = behind;
    for place in (0..interfaces.len()).rev() {
        let iface = &interfaces[place];
        if iface.matches(name) {
            first = Some(earlier(Found { zone, iface }, first));
        }
    }
    first
}

/// The zone of the first interface entry that stands for a name: an exact entry comes before one with `+`, then the
/// longer prefix, then the zone's name (firewalld.zone(5), `interface`).
pub fn interface_zone<'a>(config: &'a Config, name: &str) -> Option<&'a Zone>
    ensures { option_copied result ≡ interface_zone config.now name.now }
{
    let zones = config.zones.as_slice();
    let mut first = None;
    for place in (0..zones.len()).rev() {
        first = first_in(&zones[place], name, first);
    }
    match first {
        Some(found) => Some(found.zone),
        None => None,
    }
}
