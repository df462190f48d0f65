//! Rows of values that are held as the bytes that spell them, one a line, and what becomes of each: the types, each value lent, the offset behind
//! them, and whether they are written as they were read; or the place of the fault. Bytes are hexadecimal. What is to be printed was worked out by
//! hand from the D-Bus Specification and stands in the file stdout beside src/. Lines that begin with `#` say what follows.
#![tactic(auto)]

mod again;
mod shown;

use again::again;
use anyhow::{Result, anyhow};
use dbus_wire::{Endian, Signature, read_signature};
use hex::decode;
use shown::push_values;
use std::alloc::Global;

fn main(rt: HostRuntime) -> Result<()> {
    let alloc = rt.alloc();
    for line in rt.lines(alloc) {
        let line = line?;
        if line.starts_with('#') {
            continue;
        }
        println!(rt;
            "{}: {}",
            line.as_str(),
            told(alloc, line.as_str())?.as_str()
        )?;
    }
    Ok(())
}

/// The word before the next space, and what is behind it.
fn next_word(words: &str) -> Result<(&str, &str)> {
    words
        .split_once(' ')
        .ok_or_else(|| anyhow!("too few words"))
}

/// `little` or `big`.
fn endian_of(word: &str) -> Result<Endian> {
    match word {
        "little" => Ok(Endian::Little),
        "big" => Ok(Endian::Big),
        _ => Err(anyhow!("no byte order")),
    }
}

/// `ORDER TYPES OFFSET BYTES`: the values of these types that stand there, or the place of the fault.
fn told(alloc: Global, line: &str) -> Result<String> {
    let (order, rest) = next_word(line)?;
    let (codes, rest) = next_word(rest)?;
    let (offset, text) = next_word(rest)?;
    let signature = read_signature(alloc, codes.as_bytes())
        .ok()
        .ok_or_else(|| anyhow!("no signature"))?;
    let bytes = decode(alloc, text)?;
    read(
        alloc,
        &signature,
        bytes.as_slice(),
        offset.parse::<usize>()?,
        endian_of(order)?,
    )
}

fn read(
    alloc: Global,
    signature: &Signature,
    bytes: &[u8],
    offset: usize,
    endian: Endian,
) -> Result<String> {
    if bytes.len() < offset || bytes.len() >= 4_294_967_296 {
        return Err(anyhow!("an offset behind the bytes"));
    }
    let mut out = bytes[..offset].to_vec(alloc)?;
    match again(alloc, signature, bytes, endian, &mut out) {
        Ok((held, end)) => {
            let mut text = String::new(alloc);
            push_values(&mut text, &held)?;
            let same = bytes.starts_with(out.as_slice()) && out.len() == end;
            let word = if same {
                "written again"
            } else {
                "written otherwise"
            };
            write!(text, "up to {end}, {word}")?;
            Ok(text)
        }
        Err(error) => Ok(format!(in alloc; "{error:?}")?),
    }
}
