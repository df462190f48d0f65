//! Reads a D-Bus dict out of bytes, writes one that was read, or does both, as often as the first argument says, and prints a checksum of what
//! came of it alone. The second argument is `read`, `write` or `both`. The folder bench/ has the yardstick that does the same.
#![tactic(auto)]

mod again;
mod dict;
mod timed;

use crate::again::again;
use crate::dict::dict_bytes;
use crate::timed::{read_only, write_only};
use anyhow::{Result, anyhow};
use dbus_wire::{Signature, WireError, read_signature};
use std::alloc::Global;
use std::env;

/// The checksum with some bytes.
pub fn mixed(sum: u64, bytes: &[u8]) -> u64 {
    let mut sum = sum;
    for byte in bytes {
        sum = sum.wrapping_mul(31).wrapping_add(u64::from(*byte));
    }
    sum
}

/// The checksum of what is read and written, or 0 where that is once not what was read.
fn both(alloc: Global, signature: &Signature, bytes: &[u8], count: u64) -> Result<u64, WireError> {
    let mut out = Vec::new(alloc);
    let mut sum = 0;
    if bytes.len() > u32::MAX as usize {
        return Ok(0);
    }
    for _ in 0..count {
        again(alloc, signature, bytes, &mut out)?;
        if out.as_slice() != bytes {
            return Ok(0);
        }
        sum = mixed(sum, out.as_slice());
    }
    Ok(sum)
}

/// The checksum of what was written, or 0 where the bytes are too many.
fn written(
    alloc: Global,
    signature: &Signature,
    bytes: &[u8],
    count: u64,
) -> Result<u64, WireError> {
    let mut out = Vec::new(alloc);
    if bytes.len() > u32::MAX as usize {
        return Ok(0);
    }
    write_only(alloc, signature, bytes, count, &mut out)
}

fn checksum(alloc: Global, count: u64, work: &str) -> Result<u64> {
    let signature = read_signature(alloc, b"a{sv}")?;
    let bytes = dict_bytes(alloc)?;
    let bytes = bytes.as_slice();
    match work {
        "both" => Ok(both(alloc, &signature, bytes, count)?),
        "read" => Ok(read_only(alloc, &signature, bytes, count)?),
        "write" => Ok(written(alloc, &signature, bytes, count)?),
        _ => Err(anyhow!("read, write or both?")),
    }
}

fn main(rt: HostRuntime) -> Result<()> {
    let mut words = env::args(&rt)?.skip(1);
    let count = words
        .next()
        .ok_or_else(|| anyhow!("how often?"))?
        .as_str()
        .parse::<u64>()?;
    let work = words.next().ok_or_else(|| anyhow!("read, write or both?"))?;
    println!(rt; "{}", checksum(rt.alloc(), count, work.as_str())?)?;
    Ok(())
}
