//! The dict of the benchmark: ten entries `key0` to `key9` whose values are of several types.

use fw_base::Memory;
use std::alloc::Global;

/// Zeros up to the next multiple of eight.
fn push_padding(out: &mut Vec<u8>) -> Result<(), Memory> {
    for _ in 0..(8 - out.len() % 8) % 8 {
        out.push(0)?;
    }
    Ok(())
}

/// An entry: the key with its last digit, the letter of the value's type, and the value behind twelve bytes.
fn push_entry(out: &mut Vec<u8>, digit: u8, letter: u8, value: &[u8]) -> Result<(), Memory> {
    push_padding(out)?;
    out.extend_from_slice(&[4, 0, 0, 0, b'k', b'e', b'y', digit, 0, 1, letter, 0])?;
    out.extend_from_slice(value)?;
    Ok(())
}

/// The entries, from a multiple of eight on.
fn entries(alloc: Global) -> Result<Vec<u8>, Memory> {
    let rows: [(u8, u8, &[u8]); 10] = [
        (b'0', b's', b"\x08\0\0\0external\0"),
        (b'1', b'u', &[0x44, 0x33, 0x22, 0x11]),
        (b'2', b'b', &[1, 0, 0, 0]),
        (b'3', b't', &[0, 0, 0, 0, 8, 7, 6, 5, 4, 3, 2, 1]),
        (b'4', b'y', &[200]),
        (b'5', b'q', &[0xbb, 0x01]),
        (b'6', b'i', &[0xfe, 0xff, 0xff, 0xff]),
        (
            b'7',
            b'x',
            &[0, 0, 0, 0, 0xfd, 255, 255, 255, 255, 255, 255, 255],
        ),
        (b'8', b's', b"\x04\0\0\0eth0\0"),
        (b'9', b'n', &[0xff, 0xff]),
    ];
    let mut out = Vec::new(alloc);
    for (digit, letter, value) in &rows {
        push_entry(&mut out, *digit, *letter, value)?;
    }
    Ok(out)
}

/// The dict in little-endian bytes: how many bytes its entries have, padding, and the entries.
///
/// The number of four bytes and the four bytes of padding are those of one number of eight.
pub fn dict_bytes(alloc: Global) -> Result<Vec<u8>, Memory> {
    let entries = entries(alloc)?;
    let mut out = Vec::new(alloc);
    out.extend_from_slice(&(entries.len() as u64).to_le_bytes())?;
    out.extend_from_slice(entries.as_slice())?;
    Ok(out)
}
