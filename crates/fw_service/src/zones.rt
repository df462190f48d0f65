//! The built-in zones.
ghost use Rattle.std.specs.Prelude.{◌≡◌, IfOk, map};
ghost use Rattle.fw_service.specs.Zones.{built_in_zones, no_notes, rules_of, zone};

use super::texts::texts;
use fw_base::{Memory, Seq, Text};
use fw_model::{Notes, Rules, Zone, ZoneTarget};
use std::alloc::Global;

/// The zones that there are from the start, in order of their names (firewalld.zones(5)).
///
/// Refuses for want of memory alone.
pub fn built_in_zones(alloc: Global) -> Result<Seq<Zone>, Memory>
    ensures { IfOk result (λ zones. zones ≡ built_in_zones) }
{
    let home = &["ssh", "mdns", "samba-client", "dhcpv6-client"];
    let work = &["ssh", "dhcpv6-client"];
    let mut zones = Seq::new(alloc);
    zones.push(zone(alloc, "block", ZoneTarget::Reject, &[], false)?)?;
    zones.push(zone(alloc, "dmz", ZoneTarget::Default, &["ssh"], false)?)?;
    zones.push(zone(alloc, "drop", ZoneTarget::Drop, &[], false)?)?;
    zones.push(zone(alloc, "external", ZoneTarget::Default, &["ssh"], true)?)?;
    zones.push(zone(alloc, "home", ZoneTarget::Default, home, false)?)?;
    zones.push(zone(alloc, "internal", ZoneTarget::Default, home, false)?)?;
    zones.push(zone(alloc, "public", ZoneTarget::Default, work, false)?)?;
    zones.push(zone(alloc, "trusted", ZoneTarget::Accept, &[], false)?)?;
    zones.push(zone(alloc, "work", ZoneTarget::Default, work, false)?)?;
    Ok(zones)
}

/// A zone with no setting but these, that lets packets go from it to itself.
fn zone(
    alloc: Global,
    name: &str,
    target: ZoneTarget,
    services: &[&str],
    masquerade: bool,
) -> Result<Zone, Memory>
    ensures { IfOk result (λ made. made ≡ zone name.now target (map (λ text. text.now) services.now) masquerade) }
{
    Ok(Zone {
        name: Text::of(alloc, name)?,
        notes: no_notes(alloc)?,
        target,
        rules: rules_of(alloc, texts(alloc, services)?, masquerade),
        inversion: false,
        forward: true,
        interfaces: Seq::new(alloc),
        sources: Seq::new(alloc),
    })
}

fn no_notes(alloc: Global) -> Result<Notes, Memory>
    ensures { IfOk result (λ notes. notes ≡ no_notes) }
{
    Ok(Notes {
        version: Text::of(alloc, "")?,
        short: Text::of(alloc, "")?,
        description: Text::of(alloc, "")?,
    })
}

fn rules_of(alloc: Global, services: Seq<Text>, masquerade: bool) -> Rules
    ensures { result ≡ rules_of services masquerade }
{
    Rules {
        services,
        ports: Seq::new(alloc),
        protocols: Seq::new(alloc),
        source_ports: Seq::new(alloc),
        icmp_blocks: Seq::new(alloc),
        masquerade,
        forwards: Seq::new(alloc),
        rich: Seq::new(alloc),
    }
}
