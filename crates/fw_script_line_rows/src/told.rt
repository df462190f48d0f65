//! What a line says as a text.
use super::calls::tell_call;
use super::packets::tell_packet;
use fw_base::Memory;
use fw_script_line::{Line, LineError, read_line};
use std::alloc::Global;

/// What a line says; `-` stands for a line outside the grammar.
pub fn told(alloc: Global, line: &str) -> Result<String, Memory> {
    let mut out = String::new(alloc);
    match read_line(alloc, line.as_bytes()) {
        Ok(line) => tell_line(alloc, &mut out, &line)?,
        Err(LineError::BadLine) => out.push('-')?,
        Err(LineError::Memory) => return Err(Memory),
    }
    Ok(out)
}

fn tell_line(alloc: Global, out: &mut String, line: &Line) -> Result<(), Memory> {
    match line {
        Line::Skip => out.push_str("skip")?,
        Line::Call { client, call } => {
            write!(out, "call {client} ")?;
            tell_call(out, call)?;
        }
        Line::Unfit { client, signature } => write!(out, "unfit {client} {signature}")?,
        Line::End { client } => write!(out, "end {client}")?,
        Line::Tick { now } => write!(out, "tick {now}")?,
        Line::Link { up, name } => write!(out, "link {} {name}", if *up { "up" } else { "gone" })?,
        Line::Packet(packet) => tell_packet(alloc, out, packet)?,
        Line::Rules => out.push_str("rules")?,
        Line::Dbus { connection, bytes } => {
            write!(out, "dbus {connection}")?;
            tell_bytes(out, bytes.as_slice())?;
        }
        Line::Hang { connection } => write!(out, "hang {connection}")?,
    }
    Ok(())
}

fn tell_bytes(out: &mut String, bytes: &[u8]) -> Result<(), Memory> {
    for byte in bytes {
        write!(out, " {byte}")?;
    }
    Ok(())
}
