//! Deep and long values.
use crate::at_offsets::again;
use crate::values::{next_word, type_of};
use anyhow::Result;
use dbus_wire::Endian;
use std::alloc::Global;

/// So many variants in one another, the last of a byte.
fn variants(alloc: Global, count: u64) -> Result<Vec<u8>> {
    let mut bytes = Vec::new(alloc);
    for _ in 1..count {
        bytes.extend_from_slice(&[1, 118, 0])?;
    }
    bytes.extend_from_slice(&[1, 121, 0, 5])?;
    Ok(bytes)
}

/// So many numbers of four bytes, as an array in little-endian bytes behind as many other bytes.
fn numbers(alloc: Global, before: usize, count: u32) -> Result<Vec<u8>> {
    let mut bytes = Vec::new(alloc);
    for _ in 0..before {
        bytes.push(170)?;
    }
    bytes.extend_from_slice(&count.wrapping_mul(4).to_le_bytes())?;
    for number in 0..count {
        bytes.extend_from_slice(&number.to_le_bytes())?;
    }
    Ok(bytes)
}

/// Whether a value is written again as it was read, or the place at fault.
fn told(alloc: Global, codes: &str, bytes: &[u8], offset: usize) -> Result<String> {
    match again(
        alloc,
        &type_of(alloc, codes)?,
        bytes,
        offset,
        Endian::Little,
    )? {
        Ok(out) if out.as_slice() == bytes => Ok(format!(in alloc; "written again")?),
        Ok(_) => Ok(format!(in alloc; "written otherwise")?),
        Err(error) => Ok(format!(in alloc; "{error:?}")?),
    }
}

/// `COUNT`: so many variants in one another.
pub fn variants_told(alloc: Global, count: &str) -> Result<String> {
    let bytes = variants(alloc, count.parse::<u64>()?)?;
    told(alloc, "v", bytes.as_slice(), 0)
}

/// `BEFORE COUNT`: an array of so many numbers, behind as many other bytes.
pub fn numbers_told(alloc: Global, words: &str) -> Result<String> {
    let (before, count) = next_word(words)?;
    let before = before.parse::<usize>()?;
    let bytes = numbers(alloc, before, count.parse::<u32>()?)?;
    told(alloc, "au", bytes.as_slice(), before)
}
