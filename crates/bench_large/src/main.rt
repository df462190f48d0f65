//! Reads a message with a large array of bytes out of a stream, and prints how many bytes the array has. The argument
//! says of how many pieces of 65,536 bytes the array is; 1,024 are the most that an array may have. `bench/run`
//! measures the most memory that this takes.
#![tactic(auto)]

ghost use Rattle.std.specs.Prelude.{◌≤◌};

use anyhow::{Result, anyhow};
use dbus_held::Lent;
use dbus_msg::{Decoder, FeedEnd, Message};
use fw_base::Memory;
use std::alloc::Global;
use std::env;

/// How many bytes the stream's pieces have.
const PIECE: u32 = 65_536;

/// How many pieces an array may have.
const MOST: u32 = 1_024;

/// The bytes of one piece: 0 to 255, again and again.
fn piece(alloc: Global) -> Result<Vec<u8>, Memory> {
    let mut bytes = Vec::new(alloc);
    for number in 0..PIECE {
        bytes.push((number % 256) as u8)?;
    }
    Ok(bytes)
}

/// A return whose body is an array of so many bytes, as far as the array's length.
fn head(alloc: Global, count: u32) -> Result<Vec<u8>, Memory>
    requires { count ≤ 67108864 }
{
    let mut bytes = Vec::new(alloc);
    bytes.extend_from_slice(b"l\x02\x01\x01")?;
    bytes.extend_from_slice(&(count + 4).to_le_bytes())?;
    bytes.extend_from_slice(b"\x01\0\0\0\x10\0\0\0\x05\x01u\0\x07\0\0\0\x08\x01g\0\x02ay\0")?;
    bytes.extend_from_slice(&count.to_le_bytes())?;
    Ok(bytes)
}

/// How many bytes the array of a message has, or 0 where they are others.
fn array_len(alloc: Global, message: &Message) -> Result<usize, Memory> {
    let Some(Lent::Bytes(bytes)) = message.body.lent(alloc, 0)? else {
        return Ok(0);
    };
    let same = bytes
        .iter()
        .enumerate()
        .all(|(place, byte)| *byte == (place % 256) as u8);
    Ok(if same { bytes.len() } else { 0 })
}

/// How many bytes the array has that is received in so many pieces, or 0 where another message is.
fn received(alloc: Global, pieces: u32) -> Result<usize, Memory>
    requires { pieces ≤ 1024 }
{
    let mut decoder = Decoder::new(alloc);
    let mut left = 1u64 << 40;
    let head = head(alloc, pieces * PIECE)?;
    let piece = piece(alloc)?;
    let mut len = 0;
    if left < head.len() as u64 {
        return Ok(0);
    }
    left -= head.len() as u64;
    let fed = decoder.feed(head.as_slice());
    if fed.end != FeedEnd::Open {
        return Ok(0);
    }
    for _ in 0..pieces {
        if left < piece.len() as u64 {
            return Ok(0);
        }
        left -= piece.len() as u64;
        let fed = decoder.feed(piece.as_slice());
        if fed.end != FeedEnd::Open {
            return Ok(0);
        }
        for message in fed.messages.as_slice() {
            len = array_len(alloc, message)?;
        }
    }
    Ok(len)
}

fn main(rt: HostRuntime) -> Result<()> {
    let word = env::args(&rt)?
        .nth(1)
        .ok_or_else(|| anyhow!("of how many pieces is the array?"))?;
    let pieces = word.as_str().parse::<u32>()?.min(MOST);
    println!(rt; "{}", received(rt.alloc(), pieces)?)?;
    Ok(())
}
