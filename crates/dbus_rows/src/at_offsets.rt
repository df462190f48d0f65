//! Values read at eight offsets and written again.
use crate::again::again_at;
use crate::values::{next_word, type_of};
use anyhow::{Result, anyhow};
use dbus_wire::{Endian, Signature, WireError};
use hex::decode;
use std::alloc::Global;

/// How many bytes stand before the next multiple of an alignment, which isn't 0.
fn padding(offset: usize, alignment: usize) -> usize {
    match offset.checked_rem(alignment) {
        None => 0,
        Some(0) => 0,
        Some(over) => alignment.saturating_sub(over),
    }
}

/// Bytes of another value up to an offset, padding, and a value.
fn placed(alloc: Global, offset: usize, pad: usize, content: &[u8]) -> Result<Vec<u8>> {
    let mut bytes = Vec::new(alloc);
    for _ in 0..offset {
        bytes.push(170)?;
    }
    for _ in 0..pad {
        bytes.push(0)?;
    }
    bytes.extend_from_slice(content)?;
    Ok(bytes)
}

/// The bytes written again behind those before the offset, or the place at fault.
pub fn again(
    alloc: Global,
    signature: &Signature,
    bytes: &[u8],
    offset: usize,
    endian: Endian,
) -> Result<Result<Vec<u8>, WireError>> {
    if !signature.is_one_type(alloc)? || bytes.len() >= 4_294_967_296 || bytes.len() < offset {
        return Err(anyhow!("no type, or an offset behind the bytes"));
    }
    let mut out = bytes[..offset].to_vec(alloc)?;
    match again_at(alloc, signature, bytes, endian, &mut out) {
        Ok(_) => Ok(Ok(out)),
        Err(error) => Ok(Err(error)),
    }
}

/// Whether a value is written again at an offset as it was read.
fn is_again(
    alloc: Global,
    signature: &Signature,
    bytes: &[u8],
    offset: usize,
    endian: Endian,
) -> Result<bool> {
    match again(alloc, signature, bytes, offset, endian)? {
        Ok(out) => Ok(out.as_slice() == bytes),
        Err(_) => Ok(false),
    }
}

/// At how many of eight offsets the value is written again as it was read.
fn offsets_again(
    alloc: Global,
    signature: &Signature,
    alignment: usize,
    content: &[u8],
    endian: Endian,
) -> Result<u64> {
    let mut count = 0u64;
    for offset in 0..8usize {
        let bytes = placed(alloc, offset, padding(offset, alignment), content)?;
        if is_again(alloc, signature, bytes.as_slice(), offset, endian)? {
            count = count.saturating_add(1);
        }
    }
    Ok(count)
}

/// What becomes of the value at offset 1 where its last byte of padding is 1.
fn not_zero(
    alloc: Global,
    signature: &Signature,
    alignment: usize,
    content: &[u8],
) -> Result<String> {
    let pad = padding(1, alignment);
    let mut bytes = placed(alloc, 1, pad, content)?;
    if pad == 0 || pad >= bytes.len() {
        return Ok(format!(in alloc; "no padding")?);
    }
    bytes[pad] = 1;
    match again(alloc, signature, bytes.as_slice(), 1, Endian::Little)? {
        Ok(_) => Ok(format!(in alloc; "padding is taken")?),
        Err(error) => Ok(format!(in alloc; "{error:?}")?),
    }
}

/// `TYPE ALIGNMENT LITTLE BIG`: a value in both byte orders, written again at offsets 0 to 7, and what becomes of it where its padding isn't
/// zero.
pub fn again_told(alloc: Global, words: &str) -> Result<String> {
    let (codes, rest) = next_word(words)?;
    let (alignment, rest) = next_word(rest)?;
    let (little, big) = next_word(rest)?;
    let signature = type_of(alloc, codes)?;
    let alignment = alignment.parse::<usize>()?;
    let (little, big) = (decode(alloc, little)?, decode(alloc, big)?);
    let of_little = offsets_again(
        alloc,
        &signature,
        alignment,
        little.as_slice(),
        Endian::Little,
    )?;
    let of_big = offsets_again(alloc, &signature, alignment, big.as_slice(), Endian::Big)?;
    let not_zero = not_zero(alloc, &signature, alignment, little.as_slice())?;
    Ok(format!(in alloc;
        "at {of_little} and {of_big} offsets, and {}",
        not_zero.as_str()
    )?)
}
