//! The configuration that is in force after a reload.
ghost use Rattle.std.specs.Prelude.{◌≡◌, map, IfOk, OnOk, ◌++◌};
ghost use Rattle.fw_root_members.specs.Reloading.{bound_nowhere, interfaces_of, is_bound, reloaded_config, with_stayed};

use fw_addr::Iface;
use fw_base::{Memory, Seq, TryCopy};
use fw_model::{Config, Zone};
use fw_zone_edits::zone_named;
use std::alloc::Global;

/// The interfaces of the zone of a name; none where there is no such zone.
fn interfaces_of<'a>(zones: &'a [Zone], name: &str) -> &'a [Iface]
    ensures { result.now ≡ interfaces_of zones.now name.now }
{
    match zone_named(zones, name) {
        Some(found) => found.zone.interfaces.as_slice(),
        None => &[],
    }
}

/// Whether one of some zones lists an interface. Names are compared as texts.
fn is_bound(zones: &[Zone], iface: &Iface) -> bool
    ensures { result ≡ is_bound zones.now iface.now }
{
    zones
        .iter()
        .any(|zone| zone.interfaces.as_slice().contains(iface))
}

/// Appends those of some interfaces that no zone lists.
fn push_bound_nowhere(
    alloc: Global,
    zones: &[Zone],
    names: &[Iface],
    interfaces: &mut Seq<Iface>,
) -> Result<(), Memory>
    ensures { OnOk result (interfaces.new ≡ interfaces.old ++ bound_nowhere zones.now names.now) }
{
    for name in names {
        if !is_bound(zones, name) {
            interfaces.push(name.copy(alloc)?)?;
        }
    }
    Ok(())
}

/// A permanent zone, and behind its interfaces those that stay.
fn with_stayed(
    alloc: Global,
    permanent: &[Zone],
    in_force: &[Zone],
    zone: &Zone,
) -> Result<Zone, Memory>
    ensures { IfOk result (λ made. made ≡ with_stayed permanent.now in_force.now zone.now) }
{
    let names = interfaces_of(in_force, zone.name.as_str());
    let mut made = zone.copy(alloc)?;
    push_bound_nowhere(alloc, permanent, names, &mut made.interfaces)?;
    Ok(made)
}

fn reloaded_zones(alloc: Global, permanent: &[Zone], in_force: &[Zone]) -> Result<Seq<Zone>, Memory>
    ensures { IfOk result (λ zones. zones ≡ map (with_stayed permanent.now in_force.now) permanent.now) }
{
    let mut zones = Seq::new(alloc);
    for zone in permanent {
        zones.push(with_stayed(alloc, permanent, in_force, zone)?)?;
    }
    Ok(zones)
}

/// The configuration in force after a reload: the permanent one, in which zones keep the interfaces that they have in force and that the
/// permanent settings bind nowhere.
///
/// Refuses for want of memory alone.
pub fn reloaded_config(
    alloc: Global,
    permanent: &Config,
    in_force: &Config,
) -> Result<Config, Memory>
    ensures { IfOk result (λ config. config ≡ reloaded_config permanent.now in_force.now) }
{
    let zones = reloaded_zones(alloc, permanent.zones.as_slice(), in_force.zones.as_slice())?;
    Ok(Config {
        default_zone: permanent.default_zone.copy(alloc)?,
        log_denied: permanent.log_denied,
        zones,
        policies: permanent.policies.copy(alloc)?,
        services: permanent.services.copy(alloc)?,
        ipsets: permanent.ipsets.copy(alloc)?,
    })
}
