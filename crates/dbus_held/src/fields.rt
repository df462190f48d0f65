//! Reads padding and numbers, and passes over what isn't kept.

ghost use Rattle.std.specs.Prelude.{◌≡◌, ◌<◌, ◌≤◌, ◌+◌, length, take, drop};
ghost use Rattle.std.specs.Int.{Width, w16, w32, w64, byte_len};
ghost use Rattle.dbus_signature.specs.Cursors.{read_at, seen};
ghost use Rattle.dbus_signature.specs.Reading.{Gives};
ghost use Rattle.dbus_wire.specs.Fields.{aligned_at, byte_at, gap, number_at, padding_at, zeros_at};
ghost use Rattle.dbus_held.specs.Ends.{bool_end, byte_end, number_end, skip_at};

use dbus_signature::{Cursor, WireError};
use dbus_wire::Endian;

/// How many bytes lie before the next multiple of an alignment.
fn gap(align: usize, at: usize) -> usize
    requires { 0 < align }
    ensures { result ≡ gap align at }
{
    (align - at % align) % align
}

/// So many bytes that are zero.
pub fn zeros_at(count: usize, from: Cursor<'_>) -> Result<((), Cursor<'_>), WireError>
    ensures { Gives seen result (read_at (zeros_at count) from.entry) }
{
    let mut next = from;
    for _ in 0..count {
        let Some((byte, after)) = next.next() else {
            return Err(WireError::Bad(next.at));
        };
        if byte != 0 {
            return Err(WireError::Bad(next.at));
        }
        next = after;
    }
    Ok(((), next))
}

/// The padding before what is aligned so.
#[tactic(auto, unfolding(dbus_wire::specs::Fields::padding_at))]
pub fn padding_at(align: usize, from: Cursor<'_>) -> Result<((), Cursor<'_>), WireError>
    requires { 0 < align }
    ensures { Gives seen result (read_at (padding_at align) from.entry) }
{
    zeros_at(gap(align, from.at), from)
}

/// The cursor behind so many bytes.
#[tactic(auto, unfolding(crate::specs::Ends::skip_at))]
pub fn skip_at(count: usize, from: Cursor<'_>) -> Result<((), Cursor<'_>), WireError>
    ensures { Gives seen result (read_at (skip_at count) from.entry) }
{
    if from.rest.len() < count {
        return Err(WireError::Bad(from.at));
    }
    let (_, rest) = from.rest.split_at(count);
    let after = Cursor {
        at: from.at + count,
        rest,
    };
    Ok(((), after))
}

/// A number of four bytes.
pub fn plain_u32_at(endian: Endian, from: Cursor<'_>) -> Result<(u32, Cursor<'_>), WireError>
    ensures { Gives seen result (read_at (number_at endian w32) from.entry) }
{
    let Some((bytes, rest)) = from.rest.split_first_chunk::<4>() else {
        return Err(WireError::Bad(from.at));
    };
    let number = match endian {
        Endian::Little => u32::from_le_bytes(*bytes),
        Endian::Big => u32::from_be_bytes(*bytes),
    };
    let after = Cursor {
        at: from.at + 4,
        rest,
    };
    Ok((number, after))
}

/// A number of four bytes behind its padding.
#[tactic(auto, unfolding(dbus_wire::specs::Fields::aligned_at))]
pub fn u32_at(endian: Endian, from: Cursor<'_>) -> Result<(u32, Cursor<'_>), WireError>
    ensures { Gives seen result (read_at (aligned_at endian w32) from.entry) }
{
    let ((), start) = padding_at(4, from)?;
    plain_u32_at(endian, start)
}

/// The end of a number of two bytes.
#[tactic(auto, unfolding(crate::specs::Ends::number_end))]
pub fn u16_end(from: Cursor<'_>) -> Result<((), Cursor<'_>), WireError>
    ensures { Gives seen result (read_at (number_end w16) from.entry) }
{
    let ((), start) = padding_at(2, from)?;
    skip_at(2, start)
}

/// The end of a number of four bytes.
#[tactic(auto, unfolding(crate::specs::Ends::number_end))]
pub fn u32_end(from: Cursor<'_>) -> Result<((), Cursor<'_>), WireError>
    ensures { Gives seen result (read_at (number_end w32) from.entry) }
{
    let ((), start) = padding_at(4, from)?;
    skip_at(4, start)
}

/// The end of a number of eight bytes.
#[tactic(auto, unfolding(crate::specs::Ends::number_end))]
pub fn u64_end(from: Cursor<'_>) -> Result<((), Cursor<'_>), WireError>
    ensures { Gives seen result (read_at (number_end w64) from.entry) }
{
    let ((), start) = padding_at(8, from)?;
    skip_at(8, start)
}

/// The end of a byte.
#[tactic(auto, unfolding(crate::specs::Ends::byte_end))]
pub fn byte_end(from: Cursor<'_>) -> Result<((), Cursor<'_>), WireError>
    ensures { Gives seen result (read_at byte_end from.entry) }
{
    let Some((_, after)) = from.next() else {
        return Err(WireError::Bad(from.at));
    };
    Ok(((), after))
}

/// The end of a boolean, which is the number 0 or 1.
#[tactic(auto, unfolding(crate::specs::Ends::bool_end))]
pub fn bool_end(endian: Endian, from: Cursor<'_>) -> Result<((), Cursor<'_>), WireError>
    ensures { Gives seen result (read_at (bool_end endian) from.entry) }
{
    let ((), start) = padding_at(4, from)?;
    let (number, after) = plain_u32_at(endian, start)?;
    match number {
        0 => Ok(((), after)),
        1 => Ok(((), after)),
        _ => Err(WireError::Bad(start.at)),
    }
}
