//! Reads padding, numbers, texts and signatures.

ghost use Rattle.std.specs.Prelude.{◌≡◌, ◌<◌, ◌≤◌, ◌+◌, length, take, drop, MatchOption};
ghost use Rattle.std.specs.Int.{w16, w32, w64};
ghost use Rattle.dbus_signature.specs.Cursors.{read_at, seen};
ghost use Rattle.dbus_signature.specs.Reading.{Gives};
ghost use Rattle.dbus_wire.specs.Texts.{is_text, is_path};
ghost use Rattle.dbus_wire.specs.Fields.{aligned_at, bool_at, bool_of, byte_at, ended_at, gap, number_at, padding_at, signature_at, text_at, type_at, zeros_at};

use crate::value::Endian;
use dbus_signature::{Cursor, WireError};

/// How many bytes lie before the next multiple of an alignment.
pub fn gap(align: usize, at: usize) -> usize
    requires { 0 < align }
    ensures { result ≡ gap align at }
{
    (align - at % align) % align
}

/// So many bytes that are zero.
pub fn zeros_at(count: usize, from: Cursor<'_>) -> Result<((), Cursor<'_>), WireError>
    ensures { Gives seen result (read_at (zeros_at count) from.entry) }
{
    let mut next = from;
    for _ in 0..count {
        let Some((byte, after)) = next.next() else {
            return Err(WireError::Bad(next.at));
        };
        if byte != 0 {
            return Err(WireError::Bad(next.at));
        }
        next = after;
    }
    Ok(((), next))
}

/// The padding before what is aligned so.
#[tactic(auto, unfolding(crate::specs::Fields::padding_at))]
pub fn padding_at(align: usize, from: Cursor<'_>) -> Result<((), Cursor<'_>), WireError>
    requires { 0 < align }
    ensures { Gives seen result (read_at (padding_at align) from.entry) }
{
    zeros_at(gap(align, from.at), from)
}

/// So many bytes, and the cursor behind them; None where fewer are there.
fn chunk_at<const N: usize>(from: Cursor<'_>) -> Option<(&[u8; N], Cursor<'_>)>
    ensures { MatchOption result (length from.entry.rest.now < N) (λ found. (N ≤ length from.entry.rest.now)
        × (found.0.now ≡ take N from.entry.rest.now) × (found.1.at ≡ from.entry.at + N) × (found.1.rest.now ≡ drop N from.entry.rest.now)) }
{
    let (front, rest) = from.rest.split_first_chunk::<N>()?;
    let after = Cursor {
        at: from.at + N,
        rest,
    };
    Some((front, after))
}

/// A number of two bytes behind its padding.
#[tactic(auto, unfolding(crate::specs::Fields::aligned_at))]
pub fn u16_at(endian: Endian, from: Cursor<'_>) -> Result<(u16, Cursor<'_>), WireError>
    ensures { Gives seen result (read_at (aligned_at endian w16) from.entry) }
{
    let ((), start) = padding_at(2, from)?;
    let Some((bytes, after)) = chunk_at::<2>(start) else {
        return Err(WireError::Bad(start.at));
    };
    let number = match endian {
        Endian::Little => u16::from_le_bytes(*bytes),
        Endian::Big => u16::from_be_bytes(*bytes),
    };
    Ok((number, after))
}

/// A number of four bytes behind its padding.
#[tactic(auto, unfolding(crate::specs::Fields::aligned_at))]
pub fn u32_at(endian: Endian, from: Cursor<'_>) -> Result<(u32, Cursor<'_>), WireError>
    ensures { Gives seen result (read_at (aligned_at endian w32) from.entry) }
{
    let ((), start) = padding_at(4, from)?;
    plain_u32_at(endian, start)
}

/// A number of four bytes.
pub fn plain_u32_at(endian: Endian, from: Cursor<'_>) -> Result<(u32, Cursor<'_>), WireError>
    ensures { Gives seen result (read_at (number_at endian w32) from.entry) }
{
    let Some((bytes, after)) = chunk_at::<4>(from) else {
        return Err(WireError::Bad(from.at));
    };
    let number = match endian {
        Endian::Little => u32::from_le_bytes(*bytes),
        Endian::Big => u32::from_be_bytes(*bytes),
    };
    Ok((number, after))
}

/// A number of eight bytes behind its padding.
#[tactic(auto, unfolding(crate::specs::Fields::aligned_at))]
pub fn u64_at(endian: Endian, from: Cursor<'_>) -> Result<(u64, Cursor<'_>), WireError>
    ensures { Gives seen result (read_at (aligned_at endian w64) from.entry) }
{
    let ((), start) = padding_at(8, from)?;
    let Some((bytes, after)) = chunk_at::<8>(start) else {
        return Err(WireError::Bad(start.at));
    };
    let number = match endian {
        Endian::Little => u64::from_le_bytes(*bytes),
        Endian::Big => u64::from_be_bytes(*bytes),
    };
    Ok((number, after))
}

#[tactic(auto, unfolding(crate::specs::Fields::byte_at))]
pub fn byte_at(from: Cursor<'_>) -> Result<(u8, Cursor<'_>), WireError>
    ensures { Gives seen result (read_at byte_at from.entry) }
{
    from.next().ok_or(WireError::Bad(from.at))
}

/// A boolean, which is the number 0 or 1.
#[tactic(auto, unfolding(crate::specs::Fields::bool_at))]
pub fn bool_at(endian: Endian, from: Cursor<'_>) -> Result<(bool, Cursor<'_>), WireError>
    ensures { Gives seen result (read_at (bool_at endian) from.entry) }
{
    let ((), start) = padding_at(4, from)?;
    let (number, after) = plain_u32_at(endian, start)?;
    match number {
        0 => Ok((false, after)),
        1 => Ok((true, after)),
        _ => Err(WireError::Bad(start.at)),
    }
}
