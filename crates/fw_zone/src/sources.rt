//! Bindings of sources to zones (firewalld.zone(5), `source`).
ghost use Rattle.std.specs.Prelude.{◌≡◌, ◌≢◌, ◌<◌, ◌↔◌, length, IfSome, IsOk, IsSome, OnOk, OnErr, Err};
ghost use Rattle.fw_zone.specs.Bindings.{sources_of, with_sources, IsBound, IsFirstListed, IsInConflict, IsListed, IsListedAt, IsMoved, IsUnbound};

use super::BindError;
use super::bindings::{bind, move_to, unbind, zone_of};
use fw_base::Seq;
use fw_model::{Binding, Zone};

/// Binds a source to the zone at a place, the last of the zone's list.
///
/// Refuses one that this zone lists already, else one that another zone lists, and for want of memory; all is then as
/// before.
pub fn bind_source(zones: &mut Seq<Zone>, zone: usize, source: Binding) -> Result<(), BindError>
    requires { zone < length zones.old }
    ensures bound { OnOk result (IsBound sources_of with_sources zones.old zone source zones.new) }
    ensures already { (result ≡ Err BindError.ZoneAlreadySet) ↔ IsListedAt sources_of with_sources zones.old zone source }
    ensures conflict { (result ≡ Err BindError.ZoneConflict) ↔ IsInConflict sources_of with_sources zones.old zone source }
    ensures known { result ≢ Err BindError.Unknown }
    ensures err { OnErr result (zones.new ≡ zones.old) }
{
    bind(zones, zone, source)
}

/// Takes a source from the zone at a place; what is behind it in the zone's list moves up. It takes no memory.
///
/// Refuses one that another zone lists and this one doesn't, and one that no zone lists; all is then as before.
pub fn unbind_source(zones: &mut Seq<Zone>, zone: usize, source: &Binding) -> Result<(), BindError>
    requires { zone < length zones.old }
    ensures unbound { OnOk result (IsUnbound sources_of with_sources zones.old zone source.now zones.new) }
    ensures done { IsOk result ↔ IsListedAt sources_of with_sources zones.old zone source.now }
    ensures conflict { (result ≡ Err BindError.ZoneConflict) ↔ IsInConflict sources_of with_sources zones.old zone source.now }
    ensures unknown { (result ≡ Err BindError.Unknown) ↔ (¬ (IsListed sources_of with_sources zones.old source.now)) }
    ensures err { OnErr result (zones.new ≡ zones.old) }
{
    unbind(zones, zone, source)
}

/// Binds a source to the zone at a place, and where another zone lists it, takes it from there.
///
/// Refuses one that this zone lists already, and for want of memory; all is then as before.
pub fn move_source(zones: &mut Seq<Zone>, zone: usize, source: Binding) -> Result<(), BindError>
    requires { zone < length zones.old }
    ensures moved { OnOk result (IsMoved sources_of with_sources zones.old zone source zones.new) }
    ensures already { (result ≡ Err BindError.ZoneAlreadySet) ↔ IsListedAt sources_of with_sources zones.old zone source }
    ensures no_conflict { result ≢ Err BindError.ZoneConflict }
    ensures known { result ≢ Err BindError.Unknown }
    ensures err { OnErr result (zones.new ≡ zones.old) }
{
    move_to(zones, zone, source)
}

/// The first zone that lists a source, by its place.
pub fn zone_of_source(zones: &[Zone], source: &Binding) -> Option<usize>
    ensures first { IfSome result (λ place. IsFirstListed sources_of with_sources zones.now place source.now) }
    ensures listed { IsSome result ↔ IsListed sources_of with_sources zones.now source.now }
{
    zone_of(zones, source)
}
