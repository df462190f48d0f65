//! What a packet's line says as a text. Of the packet's fields only those are told that differ from their defaults.
use fw_addr::{CtState, Limit, Net, PktType, print_proto};
use fw_base::Memory;
use fw_model::{Origin, Packet, Via};
use std::alloc::Global;

pub fn tell_packet(alloc: Global, out: &mut String, packet: &Packet) -> Result<(), Memory> {
    match &packet.origin {
        Origin::Host => out.push_str("packet host")?,
        Origin::Link(name) => write!(out, "packet in={name}")?,
    }
    let proto = print_proto(alloc, &packet.proto)?;
    write!(out, " src={} dst={} proto={proto}", packet.src, packet.dst)?;
    if let Some(mac) = packet.mac {
        write!(out, " mac={mac}")?;
    }
    tell_number(out, "sport", u32::from(packet.sport))?;
    tell_number(out, "dport", u32::from(packet.dport))?;
    tell_number(out, "type", u32::from(packet.icmp_type))?;
    tell_number(out, "code", u32::from(packet.icmp_code))?;
    if packet.state != CtState::New {
        write!(out, " state={}", packet.state)?;
    }
    if packet.dnat {
        out.push_str(" dnat")?;
    }
    if packet.pkt != PktType::Unicast {
        write!(out, " pkt={}", packet.pkt)?;
    }
    tell_number(out, "mark", packet.mark)?;
    tell_limits(out, packet.limits.as_slice())?;
    tell_routes(out, packet.routes.as_slice())
}

fn tell_number(out: &mut String, key: &str, number: u32) -> Result<(), Memory> {
    if number != 0 {
        write!(out, " {key}={number}")?;
    }
    Ok(())
}

fn tell_limits(out: &mut String, limits: &[Limit]) -> Result<(), Memory> {
    for limit in limits {
        write!(out, " limit={limit}")?;
    }
    Ok(())
}

fn tell_routes(out: &mut String, routes: &[(Net, Via)]) -> Result<(), Memory> {
    for (net, via) in routes {
        match via {
            Via::Local => write!(out, " route={net},local")?,
            Via::Link(name) => write!(out, " route={net},{name}")?,
        }
    }
    Ok(())
}
