//! The entries by which packets belong to a zone: interfaces and sources.
ghost use Rattle.std.specs.Prelude.{◌≡◌, ◌<◌, ◌∷◌, [], ◌++◌, List, length, remove, OnOk, OnErr};
ghost use Rattle.fw_model.specs.declared.zone.Zone.{Zone};

use super::same::Same;
use fw_addr::Iface;
use fw_base::Memory;
use fw_model::{Binding, Zone};

/// An entry of a zone.
pub trait Entry: Same {
    /// The entries of its kind in a zone.
    ghost of: { Zone → List Self };

    /// The zone with other entries in their place.
    ghost with: { Zone → List Self → Zone };

    fn entries(zone: &Zone) -> &[Self]
    where
        Self: Sized,
        ensures { result.now ≡ of zone.now };

    /// Appends an entry. For want of memory the zone is as before.
    fn append(self, zone: &mut Zone) -> Result<(), Memory>
    where
        Self: Sized,
        ensures ok { OnOk result (zone.new ≡ with zone.old (of zone.old ++ self ∷ [])) }
        ensures err { OnErr result (zone.new ≡ zone.old) };

    /// Takes the entry at a place out.
    fn take_out(zone: &mut Zone, at: usize)
    where
        Self: Sized,
        requires { at < length (of zone.old) }
        ensures { zone.new ≡ with zone.old (remove (of zone.old) at) };
}

impl Entry for Iface {
    ghost use Rattle.fw_zone.specs.Bindings.{interfaces_of, with_interfaces};

    ghost of = { interfaces_of };

    ghost with = { with_interfaces };

    fn entries(zone: &Zone) -> &[Iface] {
        zone.interfaces.as_slice()
    }

    fn append(self, zone: &mut Zone) -> Result<(), Memory> {
        zone.interfaces.push(self)
    }

    fn take_out(zone: &mut Zone, at: usize) {
        let _ = zone.interfaces.remove(at);
    }
}

impl Entry for Binding {
    ghost use Rattle.fw_zone.specs.Bindings.{sources_of, with_sources};

    ghost of = { sources_of };

    ghost with = { with_sources };

    fn entries(zone: &Zone) -> &[Binding] {
        zone.sources.as_slice()
    }

    fn append(self, zone: &mut Zone) -> Result<(), Memory> {
        zone.sources.push(self)
    }

    fn take_out(zone: &mut Zone, at: usize) {
        let _ = zone.sources.remove(at);
    }
}
