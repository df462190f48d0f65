//! What a line says as a text. Of a packet's fields only those are told that differ from their defaults.
use fw_addr::{CtState, Limit, Net, PktType, print_proto};
use fw_base::Memory;
use fw_line::{Line, LineError, read_line};
use fw_model::{Origin, Packet, Via};
use std::alloc::Global;

/// What a line says; `-` stands for a line outside the grammar.
pub fn told(alloc: Global, line: &str) -> Result<String, Memory> {
    let mut out = String::new(alloc);
    match read_line(alloc, line.as_bytes()) {
        Ok(line) => tell_line(alloc, &mut out, &line)?,
        Err(LineError::BadLine) => out.push('-')?,
        Err(LineError::Memory) => return Err(Memory),
    }
    Ok(out)
}

fn tell_line(alloc: Global, out: &mut String, line: &Line) -> Result<(), Memory> {
    match line {
        Line::Skip => out.push_str("skip")?,
        Line::Call { client, .. } => write!(out, "call {client}")?,
        Line::Unfit { client, signature } => write!(out, "unfit {client} {signature}")?,
        Line::End { client } => write!(out, "end {client}")?,
        Line::Packet(packet) => tell_packet(alloc, out, packet)?,
    }
    Ok(())
}

fn tell_packet(alloc: Global, out: &mut String, packet: &Packet) -> Result<(), Memory> {
    match &packet.origin {
        Origin::Host => out.push_str("host")?,
        Origin::Link(name) => write!(out, "in={name}")?,
    }
    let proto = print_proto(alloc, &packet.proto)?;
    write!(out, " src={} dst={} proto={proto}", packet.src, packet.dst)?;
    if let Some(mac) = packet.mac {
        write!(out, " mac={mac}")?;
    }
    tell_number(out, "sport", u32::from(packet.sport))?;
    tell_number(out, "dport", u32::from(packet.dport))?;
    tell_number(out, "type", u32::from(packet.icmp_type))?;
    tell_number(out, "code", u32::from(packet.icmp_code))?;
    if packet.state != CtState::New {
        write!(out, " state={}", packet.state)?;
    }
    if packet.dnat {
        out.push_str(" dnat")?;
    }
    if packet.pkt != PktType::Unicast {
        write!(out, " pkt={}", packet.pkt)?;
    }
    tell_number(out, "mark", packet.mark)?;
    tell_limits(out, packet.limits.as_slice())?;
    tell_routes(out, packet.routes.as_slice())
}

fn tell_number(out: &mut String, key: &str, number: u32) -> Result<(), Memory> {
    if number != 0 {
        write!(out, " {key}={number}")?;
    }
    Ok(())
}

fn tell_limits(out: &mut String, limits: &[Limit]) -> Result<(), Memory> {
    for limit in limits {
        write!(out, " limit={limit}")?;
    }
    Ok(())
}

fn tell_routes(out: &mut String, routes: &[(Net, Via)]) -> Result<(), Memory> {
    for (net, via) in routes {
        match via {
            Via::Local => write!(out, " route={net},local")?,
            Via::Link(name) => write!(out, " route={net},{name}")?,
        }
    }
    Ok(())
}
