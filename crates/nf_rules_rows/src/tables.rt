//! Sets and maps of each kind, with and without elements.
use anyhow::Result;
use fw_addr::{read_iface, read_mac, read_net, read_ports};
use fw_base::{Seq, Text};
use nf_rules::{MapBody, NfMap, NfSet, SetBody};
use std::alloc::Global;

pub fn sets(alloc: Global) -> Result<Seq<NfSet>> {
    let mut sets = Seq::new(alloc);
    sets.push(NfSet {
        name: Text::of(alloc, "empty")?,
        body: SetBody::Nets(Seq::new(alloc)),
    })?;
    let mut nets = Seq::new(alloc);
    for net in ["10.0.0.0/8", "192.0.2.1", "2001:db8::/32"] {
        nets.push(read_net(net)?)?;
    }
    sets.push(NfSet {
        name: Text::of(alloc, "ipset_a")?,
        body: SetBody::Nets(nets),
    })?;
    let mut macs = Seq::new(alloc);
    macs.push(read_mac("00:1B:21:00:00:0A")?)?;
    sets.push(NfSet {
        name: Text::of(alloc, "ipset_m")?,
        body: SetBody::Macs(macs),
    })?;
    let mut ports = Seq::new(alloc);
    for range in ["80", "1000-1010"] {
        ports.push(read_ports(range)?)?;
    }
    sets.push(NfSet {
        name: Text::of(alloc, "ports_tcp")?,
        body: SetBody::Ports(ports),
    })?;
    Ok(sets)
}

pub fn maps(alloc: Global) -> Result<Seq<NfMap>> {
    let mut maps = Seq::new(alloc);
    maps.push(NfMap {
        name: Text::of(alloc, "empty")?,
        body: MapBody::Ifaces(Seq::new(alloc)),
    })?;
    let mut links = Seq::new(alloc);
    for (name, chain) in [("eth0", "in_public"), ("eth1", "in_home")] {
        links.push((read_iface(name)?, Text::of(alloc, chain)?))?;
    }
    maps.push(NfMap {
        name: Text::of(alloc, "links")?,
        body: MapBody::Ifaces(links),
    })?;
    let mut nets = Seq::new(alloc);
    nets.push((read_net("10.0.0.0/8")?, Text::of(alloc, "in_trusted")?))?;
    maps.push(NfMap {
        name: Text::of(alloc, "nets")?,
        body: MapBody::Nets(nets),
    })?;
    Ok(maps)
}
