//! A configuration in which every kind of binding stands, zones and entries in no order.
use anyhow::Result;
use fw_addr::{Family, read_iface, read_mac, read_net};
use fw_base::{Memory, Seq, Text};
use fw_model::{Binding, Config, IpSet, LogDenied, Notes, Rules, SetKind, Zone, ZoneTarget};
use std::alloc::Global;

/// Zones with bindings of every kind, and the sets that they name but for one.
pub fn config(alloc: Global) -> Result<Config> {
    Ok(Config {
        default_zone: Text::of(alloc, "public")?,
        log_denied: LogDenied::Off,
        zones: zones(alloc)?,
        policies: Seq::new(alloc),
        services: Seq::new(alloc),
        ipsets: sets(alloc)?,
    })
}

fn zones(alloc: Global) -> Result<Seq<Zone>> {
    let mut zones = Seq::new(alloc);
    zones.push(zone(alloc, "work", &["eth0+"], Seq::new(alloc))?)?;
    zones.push(zone(alloc, "home", &["eth+", "wlan0"], home_sources(alloc)?)?)?;
    zones.push(zone(alloc, "public", &[], Seq::new(alloc))?)?;
    zones.push(zone(
        alloc,
        "dmz",
        &["eth0"],
        named(alloc, &["guests", "nosuch"])?,
    )?)?;
    zones.push(zone(alloc, "block", &[], Seq::new(alloc))?)?;
    zones.push(zone(alloc, "drop", &[], named(alloc, &["blocked", "cards"])?)?)?;
    Ok(zones)
}

fn home_sources(alloc: Global) -> Result<Seq<Binding>> {
    let mut sources = Seq::new(alloc);
    sources.push(Binding::Net(read_net("10.1.0.0/16")?))?;
    sources.push(Binding::Mac(read_mac("00:1b:21:00:00:0a")?))?;
    sources.push(Binding::Net(read_net("2001:db8::/32")?))?;
    Ok(sources)
}

fn named(alloc: Global, names: &[&str]) -> Result<Seq<Binding>, Memory> {
    let mut sources = Seq::new(alloc);
    for name in names {
        sources.push(Binding::Set(Text::of(alloc, name)?))?;
    }
    Ok(sources)
}

fn sets(alloc: Global) -> Result<Seq<IpSet>, Memory> {
    let mut sets = Seq::new(alloc);
    sets.push(set(alloc, "blocked", SetKind::Net)?)?;
    sets.push(set(alloc, "cards", SetKind::Mac)?)?;
    sets.push(set(alloc, "guests", SetKind::Ip)?)?;
    Ok(sets)
}

fn set(alloc: Global, name: &str, kind: SetKind) -> Result<IpSet, Memory> {
    Ok(IpSet {
        name: Text::of(alloc, name)?,
        kind,
        family: Family::V4,
        timeout: false,
        items: Seq::new(alloc),
    })
}

/// A zone with these bindings and nothing else.
fn zone(alloc: Global, name: &str, names: &[&str], sources: Seq<Binding>) -> Result<Zone> {
    let mut interfaces = Seq::new(alloc);
    for name in names {
        interfaces.push(read_iface(name)?)?;
    }
    Ok(Zone {
        name: Text::of(alloc, name)?,
        notes: no_notes(alloc)?,
        target: ZoneTarget::Default,
        rules: no_rules(alloc),
        inversion: false,
        forward: true,
        interfaces,
        sources,
    })
}

fn no_notes(alloc: Global) -> Result<Notes, Memory> {
    Ok(Notes {
        version: Text::of(alloc, "")?,
        short: Text::of(alloc, "")?,
        description: Text::of(alloc, "")?,
    })
}

fn no_rules(alloc: Global) -> Rules {
    Rules {
        services: Seq::new(alloc),
        ports: Seq::new(alloc),
        protocols: Seq::new(alloc),
        source_ports: Seq::new(alloc),
        icmp_blocks: Seq::new(alloc),
        masquerade: false,
        forwards: Seq::new(alloc),
        rich: Seq::new(alloc),
    }
}
