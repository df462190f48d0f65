//! Reads calls out of a stream and writes their returns, as often as the argument says, and prints a checksum of what was
//! written alone. The folder bench/ has the yardstick that does the same.
#![tactic(auto)]

use anyhow::{Result, anyhow};
use dbus_held::Lent;
use dbus_msg::{Decoder, FeedEnd, Message, write_message};
use dbus_samples::answer;
use fw_base::{Memory, Text};
use std::alloc::Global;
use std::env;

/// A call of queryPort.
const CALL: [u8; 212] =
    *b"l\x01\0\x01\x1c\0\0\0\x07\0\0\0\xa1\0\0\0\x01\x01o\0\x1d\0\0\0/org/fedoraproject/FirewallD1\0\0\0\x02\x01s\0!\0\0\0org.fedoraproject.FirewallD1.zone\0\0\0\0\0\0\0\x03\x01s\0\x09\0\0\0queryPort\0\0\0\0\0\0\0\x06\x01s\0\x1c\0\0\0org.fedoraproject.FirewallD1\0\0\0\0\x08\x01g\0\x03sss\0\0\0\0\0\0\0\0\x06\0\0\0public\0\0\x02\0\0\080\0\0\x03\0\0\0tcp\0";

/// The checksum with some bytes.
fn mixed(sum: u64, bytes: &[u8]) -> u64 {
    let mut sum = sum;
    for byte in bytes {
        sum = sum.wrapping_mul(31).wrapping_add(u64::from(*byte));
    }
    sum
}

/// Whether a text stands there.
fn is_text(field: &Option<Text>, text: &str) -> bool {
    match field {
        Some(found) => found.as_str() == text,
        None => false,
    }
}

/// Whether the third value is the text `tcp`.
fn is_tcp(alloc: Global, message: &Message) -> Result<bool, Memory> {
    match message.body.lent(alloc, 2)? {
        Some(Lent::Text(text)) => Ok(text == "tcp"),
        _ => Ok(false),
    }
}

/// Appends the return of a call; false where it is another message.
fn push_return(
    alloc: Global,
    call: &Message,
    serial: u32,
    out: &mut Vec<u8>,
) -> Result<bool, Memory> {
    if call.kind != 1
        || serial == 0
        || call.serial == 0
        || !is_text(&call.fields.member, "queryPort")
    {
        return Ok(false);
    }
    let message = answer(alloc, serial, call.serial, is_tcp(alloc, call)?)?;
    write_message(&message, out)?;
    Ok(true)
}

/// The checksum of what is written, or 0 where another message is read.
fn checksum(alloc: Global, count: u32) -> Result<u64, Memory> {
    let mut out = Vec::new(alloc);
    let mut sum = 0;
    let mut decoder = Decoder::new(alloc);
    let mut left = 1u64 << 40;
    for serial in 1..=count {
        if left < 212 {
            return Ok(0);
        }
        left -= 212;
        let fed = decoder.feed(&CALL);
        if fed.end != FeedEnd::Open {
            return Ok(0);
        }
        out.clear();
        for call in fed.messages.as_slice() {
            if !push_return(alloc, call, serial, &mut out)? {
                return Ok(0);
            }
        }
        sum = mixed(sum, out.as_slice());
    }
    Ok(sum)
}

fn main(rt: HostRuntime) -> Result<()> {
    let word = env::args(&rt)?
        .nth(1)
        .ok_or_else(|| anyhow!("how many calls are answered?"))?;
    let count = word.as_str().parse::<u32>()?;
    println!(rt; "{}", checksum(rt.alloc(), count)?)?;
    Ok(())
}
