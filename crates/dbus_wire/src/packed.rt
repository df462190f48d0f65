//! Arrays of fixed basic types, whose elements are held packed.

ghost use Rattle.std.specs.Prelude.{◌≡◌, ◌<◌, ◌≤◌, ◌-◌, ◌++◌, ◌∷◌, [], ℕ, length, map, true, IfOk, MatchOption, OnOk, OnErr};
ghost use Rattle.dbus_signature.specs.Cursors.{read_at, seen};
ghost use Rattle.dbus_signature.specs.Reading.{Gives};
ghost use Rattle.dbus_signature.specs.declared.kind.Basic.TheVariants.{Byte};
ghost use Rattle.dbus_wire.specs.Appending.{Keeps};
ghost use Rattle.dbus_wire.specs.Arrays.{basic_array_at, is_fixed, row_at as row_of, row_in, IsFixed, IsOther};
ghost use Rattle.dbus_wire.specs.Packing.{packed_basic};
ghost use Rattle.dbus_wire.specs.Spelling.{in_row, packed_row};

use crate::alignment::basic_alignment;
use crate::arrays::head_at;
use crate::fixed::{push_row, row_at};
use crate::strings::front_of;
use crate::value::{Endian, Packed, Value};
use dbus_signature::{Basic, Cursor, Kind, WireError};
use fw_base::Memory;
use sqlite_items::Items;
use std::alloc::Global;

impl Packed {
    /// The type of the elements.
    pub fn basic(&self) -> Basic
        ensures { result ≡ packed_basic self.now }
    {
        match self {
            Packed::Bytes(_) => Basic::Byte,
            Packed::Bools(_) => Basic::Bool,
            Packed::I16s(_) => Basic::I16,
            Packed::U16s(_) => Basic::U16,
            Packed::I32s(_) => Basic::I32,
            Packed::U32s(_) => Basic::U32,
            Packed::I64s(_) => Basic::I64,
            Packed::U64s(_) => Basic::U64,
            Packed::Doubles(_) => Basic::Double,
            Packed::Fds(_) => Basic::Fd,
        }
    }
}

/// Whether all values of a type have one length.
fn is_fixed(basic: Basic) -> bool
    ensures { result ≡ is_fixed basic }
{
    !matches!(basic, Basic::Str | Basic::Path | Basic::Sig)
}

/// The fixed basic type that a type is, if it is one.
#[tactic(auto, using(crate::proofs::ArrayLaws::others))]
pub fn fixed_of(kind: &Kind) -> Option<Basic>
    ensures { MatchOption result (IsOther kind.now) (IsFixed kind.now) }
{
    match kind {
        Kind::Basic(basic) if is_fixed(*basic) => Some(*basic),
        Kind::Basic(_) | Kind::Variant | Kind::Array(_) | Kind::Dict(_, _) | Kind::Struct(_) => {
            None
        }
    }
}

/// Bytes up to the end.
#[tactic(auto, using(crate::proofs::ArrayLaws::row_byte))]
fn bytes_at(
    alloc: Global,
    endian: Endian,
    from: Cursor<'_>,
) -> Result<(Value, Cursor<'_>), WireError>
    ensures { Gives seen result (read_at (row_of endian Byte) from.entry) }
{
    let bytes = Items::from_slice(alloc, from.rest)?;
    let end = Cursor {
        at: from.at + from.rest.len(),
        rest: &[],
    };
    Ok((Value::Packed(Packed::Bytes(bytes)), end))
}

/// Elements of a fixed basic type up to the end of the bytes.
#[tactic(auto, using(crate::proofs::ArrayLaws::rows))]
fn elements_at(
    alloc: Global,
    endian: Endian,
    basic: Basic,
    from: Cursor<'_>,
) -> Result<(Value, Cursor<'_>), WireError>
    requires { is_fixed basic ≡ true }
    ensures { Gives seen result (read_at (row_of endian basic) from.entry) }
{
    match basic {
        Basic::Byte => bytes_at(alloc, endian, from),
        Basic::Bool => {
            let (truths, end) = row_at(alloc, endian, 4, from)?;
            Ok((Value::Packed(Packed::Bools(truths)), end))
        }
        Basic::I16 => {
            let (numbers, end) = row_at(alloc, endian, 2, from)?;
            Ok((Value::Packed(Packed::I16s(numbers)), end))
        }
        Basic::U16 => {
            let (numbers, end) = row_at(alloc, endian, 2, from)?;
            Ok((Value::Packed(Packed::U16s(numbers)), end))
        }
        Basic::I32 => {
            let (numbers, end) = row_at(alloc, endian, 4, from)?;
            Ok((Value::Packed(Packed::I32s(numbers)), end))
        }
        Basic::U32 => {
            let (numbers, end) = row_at(alloc, endian, 4, from)?;
            Ok((Value::Packed(Packed::U32s(numbers)), end))
        }
        Basic::I64 => {
            let (numbers, end) = row_at(alloc, endian, 8, from)?;
            Ok((Value::Packed(Packed::I64s(numbers)), end))
        }
        Basic::U64 => {
            let (numbers, end) = row_at(alloc, endian, 8, from)?;
            Ok((Value::Packed(Packed::U64s(numbers)), end))
        }
        Basic::Double => {
            let (numbers, end) = row_at(alloc, endian, 8, from)?;
            Ok((Value::Packed(Packed::Doubles(numbers)), end))
        }
        Basic::Fd => {
            let (numbers, end) = row_at(alloc, endian, 4, from)?;
            Ok((Value::Packed(Packed::Fds(numbers)), end))
        }
        Basic::Str | Basic::Path | Basic::Sig => unreachable!(),
    }
}

/// Elements of a fixed basic type in so many bytes.
#[tactic(auto, unfolding(crate::specs::Arrays::row_in))]
fn elements_in(
    alloc: Global,
    endian: Endian,
    basic: Basic,
    count: usize,
    from: Cursor<'_>,
) -> Result<(Value, Cursor<'_>), WireError>
    requires { is_fixed basic ≡ true }
    ensures { Gives seen result (read_at (row_in endian basic count) from.entry) }
{
    let (front, rest) = front_of(from.rest, count);
    let contents = Cursor {
        at: from.at,
        rest: front,
    };
    let (row, _) = elements_at(alloc, endian, basic, contents)?;
    let end = Cursor {
        at: from.at + front.len(),
        rest,
    };
    if from.rest.len() < count {
        return Err(WireError::Bad(end.at));
    }
    Ok((row, end))
}

/// An array of a fixed basic type.
#[tactic(auto, using(crate::proofs::ArrayLaws::basic_array_opens))]
pub fn packed_at(
    alloc: Global,
    endian: Endian,
    basic: Basic,
    from: Cursor<'_>,
) -> Result<(Value, Cursor<'_>), WireError>
    requires { is_fixed basic ≡ true }
    ensures { Gives seen result (read_at (basic_array_at endian basic) from.entry) }
{
    let (count, first) = head_at(endian, basic_alignment(basic), from)?;
    elements_in(alloc, endian, basic, count, first)
}

/// A copy of packed elements.
pub fn copy_packed(alloc: Global, packed: &Packed) -> Result<Packed, Memory>
    ensures { IfOk result (λ copied. copied ≡ packed.now) }
{
    Ok(match packed {
        Packed::Bytes(numbers) => Packed::Bytes(Items::from_slice(alloc, numbers.as_slice())?),
        Packed::Bools(truths) => Packed::Bools(Items::from_slice(alloc, truths.as_slice())?),
        Packed::I16s(numbers) => Packed::I16s(Items::from_slice(alloc, numbers.as_slice())?),
        Packed::U16s(numbers) => Packed::U16s(Items::from_slice(alloc, numbers.as_slice())?),
        Packed::I32s(numbers) => Packed::I32s(Items::from_slice(alloc, numbers.as_slice())?),
        Packed::U32s(numbers) => Packed::U32s(Items::from_slice(alloc, numbers.as_slice())?),
        Packed::I64s(numbers) => Packed::I64s(Items::from_slice(alloc, numbers.as_slice())?),
        Packed::U64s(numbers) => Packed::U64s(Items::from_slice(alloc, numbers.as_slice())?),
        Packed::Doubles(numbers) => Packed::Doubles(Items::from_slice(alloc, numbers.as_slice())?),
        Packed::Fds(numbers) => Packed::Fds(Items::from_slice(alloc, numbers.as_slice())?),
    })
}

/// Appends bytes.
#[tactic(auto, using(crate::proofs::KeepsLaws::keeping, crate::proofs::ArrayLaws::bytes_in_row))]
fn push_bytes(out: &mut Vec<u8>, bytes: &[u8]) -> Result<(), Memory>
    ensures ok { (at : ℕ) → OnOk result (out.new.items ≡ out.old.items ++ in_row (map (λ n at. n ∷ []) bytes.now) at) }
    ensures err { OnErr result (Keeps out.old.items out.new.items) }
{
    out.extend_from_slice(bytes)?;
    Ok(())
}

/// Appends the spellings of packed elements one after the other, at offsets that count from the origin.
pub fn push_elements(
    out: &mut Vec<u8>,
    origin: usize,
    endian: Endian,
    packed: &Packed,
) -> Result<(), Memory>
    requires { origin ≤ length out.old.items }
    ensures ok { OnOk result (out.new.items ≡ out.old.items ++ in_row (packed_row endian packed.now) (length out.old.items - origin)) }
    ensures err { OnErr result (Keeps out.old.items out.new.items) }
{
    match packed {
        Packed::Bytes(bytes) => push_bytes(out, bytes.as_slice()),
        Packed::Bools(truths) => push_row(out, origin, endian, truths.as_slice()),
        Packed::I16s(numbers) => push_row(out, origin, endian, numbers.as_slice()),
        Packed::U16s(numbers) => push_row(out, origin, endian, numbers.as_slice()),
        Packed::I32s(numbers) => push_row(out, origin, endian, numbers.as_slice()),
        Packed::U32s(numbers) => push_row(out, origin, endian, numbers.as_slice()),
        Packed::I64s(numbers) => push_row(out, origin, endian, numbers.as_slice()),
        Packed::U64s(numbers) => push_row(out, origin, endian, numbers.as_slice()),
        Packed::Doubles(numbers) => push_row(out, origin, endian, numbers.as_slice()),
        Packed::Fds(numbers) => push_row(out, origin, endian, numbers.as_slice()),
    }
}
