//! Values that stand at an offset.
use anyhow::{Result, anyhow};
use dbus_wire::{Endian, Signature, read_signature, read_value};
use fw_base::TryCopy;
use hex::decode;
use std::alloc::Global;

/// The word before the next space, and what is behind it.
pub fn next_word(words: &str) -> Result<(&str, &str)> {
    words
        .split_once(' ')
        .ok_or_else(|| anyhow!("too few words"))
}

/// `little` or `big`.
fn endian_of(word: &str) -> Result<Endian> {
    match word {
        "little" => Ok(Endian::Little),
        "big" => Ok(Endian::Big),
        _ => Err(anyhow!("no byte order")),
    }
}

/// The signature of a type.
pub fn type_of(alloc: Global, codes: &str) -> Result<Signature> {
    read_signature(alloc, codes.as_bytes())
        .ok()
        .ok_or_else(|| anyhow!("no signature"))
}

/// `ORDER TYPE OFFSET BYTES`: the value that stands there and the offset behind it, or the place of the fault.
pub fn value_told(alloc: Global, words: &str) -> Result<String> {
    let (order, rest) = next_word(words)?;
    let (codes, rest) = next_word(rest)?;
    let (offset, text) = next_word(rest)?;
    let signature = type_of(alloc, codes)?;
    let bytes = decode(alloc, text)?;
    read(
        alloc,
        &signature,
        bytes.as_slice(),
        offset.parse::<usize>()?,
        endian_of(order)?,
    )
}

fn read(
    alloc: Global,
    signature: &Signature,
    bytes: &[u8],
    offset: usize,
    endian: Endian,
) -> Result<String> {
    if !signature.is_one_type(alloc)? || bytes.len() < offset {
        return Err(anyhow!("no type, or an offset behind the bytes"));
    }
    match read_value(alloc, signature, bytes, offset, endian) {
        Ok((value, end)) => {
            let copied = value.copy(alloc)?;
            Ok(format!(in alloc; "{copied:?}, up to {end}")?)
        }
        Err(error) => Ok(format!(in alloc; "{error:?}")?),
    }
}
