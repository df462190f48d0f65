//! Bindings of interfaces to zones (firewalld.zone(5), `interface`).
ghost use Rattle.std.specs.Prelude.{◌≡◌, ◌≢◌, ◌<◌, ◌↔◌, length, IfSome, IsOk, IsSome, OnOk, OnErr, Err};
ghost use Rattle.fw_zone.specs.Bindings.{interfaces_of, with_interfaces, IsBound, IsFirstListed, IsInConflict, IsListed, IsListedAt, IsMoved, IsUnbound};

use super::BindError;
use super::bindings::{bind, move_to, unbind, zone_of};
use fw_addr::Iface;
use fw_base::Seq;
use fw_model::Zone;

/// Binds an interface to the zone at a place, the last of the zone's list.
///
/// Refuses one that this zone lists already, else one that another zone lists, and for want of memory; all is then as
/// before.
pub fn bind_iface(zones: &mut Seq<Zone>, zone: usize, iface: Iface) -> Result<(), BindError>
    requires { zone < length zones.old }
    ensures bound { OnOk result (IsBound interfaces_of with_interfaces zones.old zone iface zones.new) }
    ensures already { (result ≡ Err BindError.ZoneAlreadySet) ↔ IsListedAt interfaces_of with_interfaces zones.old zone iface }
    ensures conflict { (result ≡ Err BindError.ZoneConflict) ↔ IsInConflict interfaces_of with_interfaces zones.old zone iface }
    ensures known { result ≢ Err BindError.Unknown }
    ensures err { OnErr result (zones.new ≡ zones.old) }
{
    bind(zones, zone, iface)
}

/// Takes an interface from the zone at a place; what is behind it in the zone's list moves up. It takes no memory.
///
/// Refuses one that another zone lists and this one doesn't, and one that no zone lists; all is then as before.
pub fn unbind_iface(zones: &mut Seq<Zone>, zone: usize, iface: &Iface) -> Result<(), BindError>
    requires { zone < length zones.old }
    ensures unbound { OnOk result (IsUnbound interfaces_of with_interfaces zones.old zone iface.now zones.new) }
    ensures done { IsOk result ↔ IsListedAt interfaces_of with_interfaces zones.old zone iface.now }
    ensures conflict { (result ≡ Err BindError.ZoneConflict) ↔ IsInConflict interfaces_of with_interfaces zones.old zone iface.now }
    ensures unknown { (result ≡ Err BindError.Unknown) ↔ (¬ (IsListed interfaces_of with_interfaces zones.old iface.now)) }
    ensures err { OnErr result (zones.new ≡ zones.old) }
{
    unbind(zones, zone, iface)
}

/// Binds an interface to the zone at a place, and where another zone lists it, takes it from there.
///
/// Refuses one that this zone lists already, and for want of memory; all is then as before.
pub fn move_iface(zones: &mut Seq<Zone>, zone: usize, iface: Iface) -> Result<(), BindError>
    requires { zone < length zones.old }
    ensures moved { OnOk result (IsMoved interfaces_of with_interfaces zones.old zone iface zones.new) }
    ensures already { (result ≡ Err BindError.ZoneAlreadySet) ↔ IsListedAt interfaces_of with_interfaces zones.old zone iface }
    ensures no_conflict { result ≢ Err BindError.ZoneConflict }
    ensures known { result ≢ Err BindError.Unknown }
    ensures err { OnErr result (zones.new ≡ zones.old) }
{
    move_to(zones, zone, iface)
}

/// The first zone that lists an interface, by its place.
pub fn zone_of_iface(zones: &[Zone], iface: &Iface) -> Option<usize>
    ensures first { IfSome result (λ place. IsFirstListed interfaces_of with_interfaces zones.now place iface.now) }
    ensures listed { IsSome result ↔ IsListed interfaces_of with_interfaces zones.now iface.now }
{
    zone_of(zones, iface)
}
