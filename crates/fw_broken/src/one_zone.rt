//! Interfaces and sources, each of at most one zone.
ghost use Rattle.std.specs.Prelude.{◌≡◌, ◌↔◌, ℕ, List, IfSome, IsSome, IsTrue};
ghost use Rattle.fw_model.specs.declared.zone.Zone.{Zone};
ghost use Rattle.fw_valid.specs.Each.{Each};
ghost use Rattle.fw_valid.specs.Valid.{IsInOneZone};
ghost use Rattle.fw_zone.specs.Bindings.{IsFirstListed, IsListed};

use fw_addr::Iface;
use fw_model::{Binding, Zone};
use fw_zone::{zone_of_iface, zone_of_source};

/// An entry by which packets belong to a zone.
trait Entry {
    /// The entries of its kind in a zone.
    ghost of: { Zone → List Self };

    /// The zone with other entries in their place.
    ghost with: { Zone → List Self → Zone };

    /// The entries of its kind in a zone.
    fn entries(zone: &Zone) -> &[Self]
    where
        Self: Sized,
        ensures { result.now ≡ of zone.now };

    /// The first zone that lists it, by its place.
    fn first_zone(zones: &[Zone], entry: &Self) -> Option<usize>
        ensures first { IfSome result (λ place. IsFirstListed of with zones.now place entry.now) }
        ensures listed { IsSome result ↔ IsListed of with zones.now entry.now };
}

impl Entry for Iface {
    ghost use Rattle.fw_zone.specs.Bindings.{interfaces_of, with_interfaces};

    ghost of = { interfaces_of };

    ghost with = { with_interfaces };

    fn entries(zone: &Zone) -> &[Iface] {
        zone.interfaces.as_slice()
    }

    fn first_zone(zones: &[Zone], entry: &Iface) -> Option<usize> {
        zone_of_iface(zones, entry)
    }
}

impl Entry for Binding {
    ghost use Rattle.fw_zone.specs.Bindings.{sources_of, with_sources};

    ghost of = { sources_of };

    ghost with = { with_sources };

    fn entries(zone: &Zone) -> &[Binding] {
        zone.sources.as_slice()
    }

    fn first_zone(zones: &[Zone], entry: &Binding) -> Option<usize> {
        zone_of_source(zones, entry)
    }
}

/// Whether the first zone that lists an entry is the one at a place.
fn is_first_at<T: Entry>(zones: &[Zone], place: usize, entry: &T) -> bool
    ensures { IsTrue result ↔ IsFirstListed T.of T.with zones.now place entry.now }
{
    match T::first_zone(zones, entry) {
        Some(first) => first == place,
        None => false,
    }
}

/// Whether the first zone that lists each of these entries is the one at a place.
fn are_first_at<T: Entry>(zones: &[Zone], place: usize, entries: &[T]) -> bool
    ensures { IsTrue result ↔ Each (λ entry. IsFirstListed T.of T.with zones.now place entry) entries.now }
{
    for at in 0..entries.len() {
        if !is_first_at(zones, place, &entries[at]) {
            return false;
        }
    }
    true
}

/// Whether each entry is listed by at most one zone.
pub fn is_in_one_zone<T: Entry>(zones: &[Zone]) -> bool
    ensures { IsTrue result ↔ IsInOneZone T.of T.with zones.now }
{
    for place in 0..zones.len() {
        if !are_first_at(zones, place, T::entries(&zones[place])) {
            return false;
        }
    }
    true
}
