//! Numbers of the fixed basic types, one by one and in rows.

ghost use Rattle.std.specs.Prelude.{◌≡◌, ◌<◌, ◌≤◌, ◌-◌, ◌++◌, ◌∷◌, [], ℕ, List, length, map, OnOk, OnErr};
ghost use Rattle.std.specs.Int.{w16, w32, w64, cast_signed, cast_unsigned};
ghost use Rattle.dbus_signature.specs.Cursors.{read_at, seen};
ghost use Rattle.dbus_signature.specs.Reading.{Gives, Reader};
ghost use Rattle.dbus_wire.specs.declared.value.Endian.{Endian as Order};
ghost use Rattle.dbus_wire.specs.Appending.{Keeps};
ghost use Rattle.dbus_wire.specs.Fields.{aligned_at, bool_at, byte_at};
ghost use Rattle.dbus_wire.specs.Spelling.{aligned, bit, in_row};
ghost use Rattle.dbus_wire.specs.Values.{as_value, items_at};

use crate::fields::{bool_at, byte_at, u16_at, u32_at, u64_at};
use crate::numbers::{push_u16, push_u32, push_u64};
use crate::value::Endian;
use dbus_signature::{Cursor, WireError};
use fw_base::Memory;
use sqlite_items::Items;
use std::alloc::Global;

/// A number of a fixed basic type.
pub trait Fixed: Copy + Drop {
    /// How it is read.
    ghost reading: { Order → Reader Self };

    /// How it is spelt at an offset.
    ghost written: { Order → Self → ℕ → List ℕ };

    /// Reads one behind its padding.
    fn read(endian: Endian, from: Cursor<'_>) -> Result<(Self, Cursor<'_>), WireError>
        ensures { Gives seen result (read_at (reading endian) from.entry) };

    /// Appends it behind its padding, at an offset that counts from the origin.
    fn push(self, out: &mut Vec<u8>, origin: usize, endian: Endian) -> Result<(), Memory>
        requires { origin ≤ length out.old.items }
        ensures ok { OnOk result (out.new.items ≡ out.old.items ++ written endian self (length out.old.items - origin)) }
        ensures err { OnErr result (Keeps out.old.items out.new.items) };
}

impl Fixed for u8 {
    ghost reading = { λ _. byte_at };

    ghost written = { λ _ number _. number ∷ [] };

    fn read(_endian: Endian, from: Cursor<'_>) -> Result<(u8, Cursor<'_>), WireError> {
        byte_at(from)
    }

    #[tactic(auto, using(crate::proofs::KeepsLaws::keeping))]
    fn push(self, out: &mut Vec<u8>, _origin: usize, _endian: Endian) -> Result<(), Memory> {
        out.push(self)?;
        Ok(())
    }
}

impl Fixed for bool {
    ghost reading = { bool_at };

    ghost written = { λ endian truth. aligned endian w32 (bit truth) };

    fn read(endian: Endian, from: Cursor<'_>) -> Result<(bool, Cursor<'_>), WireError> {
        bool_at(endian, from)
    }

    fn push(self, out: &mut Vec<u8>, origin: usize, endian: Endian) -> Result<(), Memory> {
        push_u32(out, origin, endian, if self { 1 } else { 0 })
    }
}

impl Fixed for u16 {
    ghost reading = { λ endian. aligned_at endian w16 };

    ghost written = { λ endian. aligned endian w16 };

    fn read(endian: Endian, from: Cursor<'_>) -> Result<(u16, Cursor<'_>), WireError> {
        u16_at(endian, from)
    }

    fn push(self, out: &mut Vec<u8>, origin: usize, endian: Endian) -> Result<(), Memory> {
        push_u16(out, origin, endian, self)
    }
}

impl Fixed for u32 {
    ghost reading = { λ endian. aligned_at endian w32 };

    ghost written = { λ endian. aligned endian w32 };

    fn read(endian: Endian, from: Cursor<'_>) -> Result<(u32, Cursor<'_>), WireError> {
        u32_at(endian, from)
    }

    fn push(self, out: &mut Vec<u8>, origin: usize, endian: Endian) -> Result<(), Memory> {
        push_u32(out, origin, endian, self)
    }
}

impl Fixed for u64 {
    ghost reading = { λ endian. aligned_at endian w64 };

    ghost written = { λ endian. aligned endian w64 };

    fn read(endian: Endian, from: Cursor<'_>) -> Result<(u64, Cursor<'_>), WireError> {
        u64_at(endian, from)
    }

    fn push(self, out: &mut Vec<u8>, origin: usize, endian: Endian) -> Result<(), Memory> {
        push_u64(out, origin, endian, self)
    }
}

impl Fixed for i16 {
    ghost reading = { λ endian at text. as_value (cast_signed w16) (aligned_at endian w16 at text) };

    ghost written = { λ endian number. aligned endian w16 (cast_unsigned w16 number) };

    fn read(endian: Endian, from: Cursor<'_>) -> Result<(i16, Cursor<'_>), WireError> {
        let (number, after) = u16_at(endian, from)?;
        Ok((number.cast_signed(), after))
    }

    fn push(self, out: &mut Vec<u8>, origin: usize, endian: Endian) -> Result<(), Memory> {
        push_u16(out, origin, endian, self.cast_unsigned())
    }
}

impl Fixed for i32 {
    ghost reading = { λ endian at text. as_value (cast_signed w32) (aligned_at endian w32 at text) };

    ghost written = { λ endian number. aligned endian w32 (cast_unsigned w32 number) };

    fn read(endian: Endian, from: Cursor<'_>) -> Result<(i32, Cursor<'_>), WireError> {
        let (number, after) = u32_at(endian, from)?;
        Ok((number.cast_signed(), after))
    }

    fn push(self, out: &mut Vec<u8>, origin: usize, endian: Endian) -> Result<(), Memory> {
        push_u32(out, origin, endian, self.cast_unsigned())
    }
}

impl Fixed for i64 {
    ghost reading = { λ endian at text. as_value (cast_signed w64) (aligned_at endian w64 at text) };

    ghost written = { λ endian number. aligned endian w64 (cast_unsigned w64 number) };

    fn read(endian: Endian, from: Cursor<'_>) -> Result<(i64, Cursor<'_>), WireError> {
        let (number, after) = u64_at(endian, from)?;
        Ok((number.cast_signed(), after))
    }

    fn push(self, out: &mut Vec<u8>, origin: usize, endian: Endian) -> Result<(), Memory> {
        push_u64(out, origin, endian, self.cast_unsigned())
    }
}

/// Numbers in a row, up to the end of the bytes, of which each takes so many.
///
/// The room for them is found at once, and there is none left over.
pub fn row_at<T: Fixed>(
    alloc: Global,
    endian: Endian,
    size: usize,
    from: Cursor<'_>,
) -> Result<(Items<T>, Cursor<'_>), WireError>
    requires { 0 < size }
    ensures { Gives seen result (read_at (items_at (T.reading endian) (length from.entry.rest.now)) from.entry) }
{
    let mut numbers = Vec::with_capacity(alloc, from.rest.len() / size)?;
    let mut next = from;
    for _ in 0..from.rest.len() {
        if next.rest.is_empty() {
            break;
        }
        let (number, after) = T::read(endian, next)?;
        numbers.push(number)?;
        next = after;
    }
    if !next.rest.is_empty() {
        return Err(WireError::Bad(next.at));
    }
    Ok((Items::from_vec(numbers), next))
}

/// Appends the spellings of numbers one after the other, at offsets that count from the origin.
#[tactic(auto, using(crate::proofs::KeepsLaws::keeping))]
pub fn push_row<T: Fixed>(
    out: &mut Vec<u8>,
    origin: usize,
    endian: Endian,
    numbers: &[T],
) -> Result<(), Memory>
    requires { origin ≤ length out.old.items }
    ensures ok { OnOk result (out.new.items ≡ out.old.items ++ in_row (map (T.written endian) numbers.now) (length out.old.items - origin)) }
    ensures err { OnErr result (Keeps out.old.items out.new.items) }
{
    for number in numbers {
        (*number).push(out, origin, endian)?;
    }
    Ok(())
}
