//! Messages, whole.
use crate::values::next_word;
use anyhow::{Result, anyhow};
use dbus_msg::{Fields, Message, read_message};
use fw_base::Text;
use hex::decode;
use std::alloc::Global;

/// A call of Ping, in little-endian bytes.
pub const PING: [u8; 88] =
    *b"l\x01\0\x01\0\0\0\0\x01\0\0\0E\0\0\0\x01\x01o\0\x01\0\0\0/\0\0\0\0\0\0\0\x02\x01s\0\x19\0\0\0org.freedesktop.DBus.Peer\0\0\0\0\0\0\0\x03\x01s\0\x04\0\0\0Ping\0\0\0\0";

fn push_text(out: &mut String, name: &str, field: &Option<Text>) -> Result<()> {
    if let Some(text) = field {
        write!(out, " {name}={}", text.as_str())?;
    }
    Ok(())
}

fn push_number(out: &mut String, name: &str, field: Option<u32>) -> Result<()> {
    if let Some(number) = field {
        write!(out, " {name}={number}")?;
    }
    Ok(())
}

fn push_fields(out: &mut String, fields: &Fields) -> Result<()> {
    push_text(out, "path", &fields.path)?;
    push_text(out, "interface", &fields.interface)?;
    push_text(out, "member", &fields.member)?;
    push_text(out, "error", &fields.error)?;
    push_number(out, "reply", fields.reply_serial)?;
    push_text(out, "destination", &fields.destination)?;
    push_text(out, "sender", &fields.sender)?;
    push_number(out, "fds", fields.fds)
}

/// A message by its kind, flags and serial, the fields that it has, and its body.
fn shown(alloc: Global, message: &Message) -> Result<String> {
    let mut out = format!(in alloc; "{} {} {}", message.kind, message.flags, message.serial)?;
    push_fields(&mut out, &message.fields)?;
    let body = message.body.values(alloc)?;
    write!(out, " {:?}", body.as_slice())?;
    Ok(out)
}

fn told(alloc: Global, bytes: &[u8]) -> Result<String> {
    if bytes.len() < 16 {
        return Err(anyhow!("too short for a message"));
    }
    match read_message(alloc, bytes)? {
        Some(message) => shown(alloc, &message),
        None => Ok(format!(in alloc; "no message")?),
    }
}

/// `BYTES`: the message that they are as a whole, if they are one.
pub fn message_told(alloc: Global, text: &str) -> Result<String> {
    let bytes = decode(alloc, text)?;
    told(alloc, bytes.as_slice())
}

/// `PLACE BYTE`: the call of Ping with another byte at a place.
pub fn call_told(alloc: Global, words: &str) -> Result<String> {
    let (place, byte) = next_word(words)?;
    let place = place.parse::<usize>()?;
    let mut bytes = PING;
    if place >= bytes.len() {
        return Err(anyhow!("no such place"));
    }
    bytes[place] = byte.parse::<u8>()?;
    told(alloc, &bytes)
}
