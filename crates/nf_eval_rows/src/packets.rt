//! Packets and sets that the rows ask about.
use fw_addr::{Addr, Limit, Mac, Net, PktType, PortRange, Proto, Unit};
use fw_base::{Memory, Seq, Text};
use fw_model::{CtState, Origin, Packet};
use nf_rules::{NfSet, SetBody};
use std::alloc::Global;

/// 10.0.0.0/8
fn ten() -> Net {
    Net::new(Addr::V4(0x0a00_0000), 8)
}

fn three_a_minute() -> Limit {
    Limit {
        count: 3,
        unit: Unit::Minute,
    }
}

fn list_of<T: Drop>(alloc: Global, item: T) -> Result<Seq<T>, Memory> {
    let mut list = Seq::new(alloc);
    list.push(item)?;
    Ok(list)
}

/// TCP from 10.1.2.3 to port 80 of 192.0.2.1, new, by eth0, from a known sender, within a limit.
pub fn new_connection(alloc: Global) -> Result<Packet, Memory> {
    Ok(Packet {
        origin: Origin::Link(Text::of(alloc, "eth0")?),
        src: Addr::V4(0x0a01_0203),
        dst: Addr::V4(0xc000_0201),
        mac: Some(Mac(5)),
        proto: Proto(6),
        sport: 40_000,
        dport: 80,
        icmp_type: 0,
        icmp_code: 0,
        state: CtState::New,
        dnat: false,
        pkt: PktType::Unicast,
        mark: 0,
        limits: list_of(alloc, three_a_minute())?,
        routes: Seq::new(alloc),
    })
}

/// An echo request of IPv6 that the host itself sends, answered before, of a translated connection, to all.
pub fn echo(alloc: Global) -> Result<Packet, Memory> {
    Ok(Packet {
        origin: Origin::Host,
        src: Addr::V6(1),
        dst: Addr::V6(2),
        mac: None,
        proto: Proto(58),
        sport: 0,
        dport: 0,
        icmp_type: 128,
        icmp_code: 0,
        state: CtState::Established,
        dnat: true,
        pkt: PktType::Multicast,
        mark: 0,
        limits: Seq::new(alloc),
        routes: Seq::new(alloc),
    })
}

fn set(alloc: Global, name: &str, body: SetBody) -> Result<NfSet, Memory> {
    Ok(NfSet {
        name: Text::of(alloc, name)?,
        body,
    })
}

/// A set of each kind: 10.0.0.0/8, the known sender, and the ports 80 to 90.
pub fn sets(alloc: Global) -> Result<Seq<NfSet>, Memory> {
    let mut sets = Seq::new(alloc);
    sets.push(set(alloc, "macs", SetBody::Macs(list_of(alloc, Mac(5))?))?)?;
    sets.push(set(alloc, "nets", SetBody::Nets(list_of(alloc, ten())?))?)?;
    let ports = PortRange {
        first: 80,
        last: 90,
    };
    sets.push(set(alloc, "ports", SetBody::Ports(list_of(alloc, ports)?))?)?;
    Ok(sets)
}
