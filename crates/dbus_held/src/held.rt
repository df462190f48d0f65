//! Values held as the bytes that spell them.

ghost use Rattle.std.specs.Prelude.{◌≡◌, ◌≤◌, ◌<◌, ◌+◌, ◌-◌, ◌%◌, ◌^◌, ◌++◌, ◌↔◌, [], IsTrue, ℕ, List, length, drop, replicate, slice_get, All, IfOk, OnOk, OnErr, Ok};
ghost use Rattle.dbus_signature.specs.Reading.{Gives};
ghost use Rattle.dbus_signature.specs.Signatures.{all_kinds, IsKind};
ghost use Rattle.dbus_signature.specs.declared.kind.Kind.{Kind as OneType};
ghost use Rattle.dbus_wire.specs.Appending.{Keeps};
ghost use Rattle.dbus_wire.specs.Spelling.{spellings};
ghost use Rattle.dbus_wire.specs.TypeCodes.{types_codes};
ghost use Rattle.dbus_wire.specs.Values.{values_of};
ghost use Rattle.dbus_held.specs.Holding.{held_values, text_of, IsHeld};
ghost use Rattle.dbus_held.specs.Lending.{shown};

use crate::ends::{Context, members_end};
use crate::lent::{Lent, lent_held};
use dbus_signature::{Cursor, Kind, Signature, WireError, kinds_at};
use dbus_wire::{Endian, Value, push_values, read_values};
use fw_base::Memory;
use sqlite_items::Items;
use std::alloc::Global;
use std::marker::Model;

/// How many containers may be open at a place: arrays, structs, entries of dicts and variants.
const MAX_OPEN: u8 = 64;

/// What every alignment divides.
const WIDEST: usize = 8;

/// The values of a signature's types, one after the other, held as the bytes that spell them: a byte for each byte of
/// their spelling, whatever their types, in one block. Contracts see the values.
#[derive(Drop)]
pub struct Held {
    alloc: Global,
    signature: Signature,
    endian: Endian,
    /// Where the spelling begins in the bytes: at the offset at which it stood, less a multiple of 8.
    shift: usize,
    bytes: Vec<u8>,
}

impl Model for Held {
    ghost use Rattle.std.specs.Prelude.{List};
    ghost use Rattle.dbus_wire.specs.declared.value.Value.{Value as Spelt};
    ghost use Rattle.dbus_held.specs.Holding.{held_values, IsHeld};
    ghost use Rattle.dbus_wire.specs.contracts.value.Value as spelt;
    ghost use Rattle.std.specs.Coded.{codes};

    ghost Value = { List Spelt };

    ghost coded = { Prim.hlevel (codes, spelt.the_row.coded) };

    ghost view = { λ held. held_values held.endian held.signature held.shift held.bytes.items };

    ghost invariant = { λ held. IsHeld held.endian held.signature held.shift held.bytes.items };
}

/// The bytes that spell values of types at an offset.
fn spelt_at<'a>(
    alloc: Global,
    kinds: &[Kind],
    bytes: &'a [u8],
    offset: usize,
    endian: Endian,
) -> Result<&'a [u8], WireError>
    requires kinds { All IsKind kinds.now }
    requires within { offset ≤ length bytes.now }
    ensures exact { Gives (λ spelt. spelt.now) result (text_of endian kinds.now offset bytes.now) }
    ensures within { IfOk result (λ spelt. offset + length spelt.now ≤ length bytes.now) }
{
    let (_, rest) = bytes.split_at(offset);
    let from = Cursor { at: offset, rest };
    let context = Context {
        alloc,
        endian,
        room: MAX_OPEN,
    };
    let ((), after) = members_end(context, kinds, from)?;
    let (front, _) = rest.split_at(rest.len() - after.rest.len());
    Ok(front)
}

/// Bytes behind so many zeros, in a block that has no room left.
fn behind_zeros(alloc: Global, count: usize, bytes: &[u8]) -> Result<Vec<u8>, Memory>
    requires { count < 8 }
    ensures { IfOk result (λ made. made.items ≡ replicate count 0 ++ bytes.now) }
{
    let zeros = [0; WIDEST];
    let mut made = Vec::with_capacity(alloc, count + bytes.len())?;
    made.extend_from_slice(&zeros[..count])?;
    made.extend_from_slice(bytes)?;
    Ok(made)
}

/// The values of a signature's types one after the other at an offset, held, and the offset after them.
///
/// Bad comes exactly where no such values stand there, with the place as for `read_value`.
pub fn read_held(
    alloc: Global,
    signature: &Signature,
    bytes: &[u8],
    offset: usize,
    endian: Endian,
) -> Result<(Held, usize), WireError>
    requires { offset ≤ length bytes.now }
    ensures exact { (kinds : List OneType) → all_kinds signature.now ≡ Ok kinds → Gives (λ found. found) result (values_of endian kinds offset bytes.now) }
    // What is held is spelt there.
    ensures spelt { IfOk result (λ found. drop offset bytes.now ≡ spellings endian found.0 offset ++ drop found.1 bytes.now) }
{
    let codes = Cursor {
        at: 0,
        rest: signature.as_bytes(),
    };
    let kinds = kinds_at(alloc, codes)?;
    let spelt = spelt_at(alloc, kinds.as_slice(), bytes, offset, endian)?;
    let shift = offset % WIDEST;
    let held = Held {
        alloc,
        signature: Signature::of_text(alloc, signature.as_bytes())?,
        endian,
        shift,
        bytes: behind_zeros(alloc, shift, spelt)?,
    };
    Ok((held, offset + spelt.len()))
}

/// The values that bytes spell, each in its own form.
fn values_held(
    alloc: Global,
    endian: Endian,
    signature: &Signature,
    shift: usize,
    bytes: &[u8],
) -> Result<Items<Value>, Memory>
    requires { IsHeld endian signature.now shift bytes.now }
    ensures { IfOk result (λ values. values ≡ held_values endian signature.now shift bytes.now) }
{
    match read_values(alloc, signature, bytes, shift, endian) {
        Ok((values, _)) => Ok(values),
        Err(WireError::Memory) => Err(Memory),
        Err(WireError::Bad(_)) => unreachable!(),
    }
}

/// Appends bytes that spell values from an offset on, to be read at an offset that is eights apart from it.
#[tactic(auto, using(dbus_wire::proofs::KeepsLaws::keeping))]
fn push_spelt(
    out: &mut Vec<u8>,
    origin: usize,
    endian: Endian,
    signature: &Signature,
    shift: usize,
    bytes: &[u8],
) -> Result<(), Memory>
    requires origin { origin ≤ length out.old.items }
    requires held { IsHeld endian signature.now shift bytes.now }
    requires apart { shift % 8 ≡ (length out.old.items - origin) % 8 }
    ensures ok { OnOk result (out.new.items ≡ out.old.items ++ spellings endian (held_values endian signature.now shift bytes.now) (length out.old.items - origin)) }
    ensures err { OnErr result (Keeps out.old.items out.new.items) }
{
    let (_, spelt) = bytes.split_at(shift);
    out.extend_from_slice(spelt)?;
    Ok(())
}

/// The codes of the types of the values that bytes spell.
fn codes_held<'a>(endian: Endian, signature: &'a Signature, shift: usize, bytes: &[u8]) -> &'a [u8]
    requires { IsHeld endian signature.now shift bytes.now }
    ensures { types_codes (held_values endian signature.now shift bytes.now) ≡ result.now }
{
    signature.as_bytes()
}

/// Whether bytes spell no value.
fn holds_none(endian: Endian, signature: &Signature, shift: usize, bytes: &[u8]) -> bool
    requires { IsHeld endian signature.now shift bytes.now }
    ensures { IsTrue result ↔ (held_values endian signature.now shift bytes.now ≡ []) }
{
    signature.as_bytes().is_empty()
}

impl Held {
    /// The values, each in its own form.
    pub fn values(&self) -> Result<Items<Value>, Memory>
        ensures { IfOk result (λ values. values ≡ self.now) }
    {
        values_held(
            self.alloc,
            self.endian,
            &self.signature,
            self.shift,
            self.bytes.as_slice(),
        )
    }

    /// The value at a place, if there are so many: a text, an object path and an array of bytes lent, any other in its own
    /// form.
    pub fn lent(&self, place: usize) -> Result<Option<Lent<'_>>, Memory>
        ensures { IfOk result (λ found. shown found ≡ slice_get self.now place) }
    {
        let bytes = self.bytes.as_slice();
        match lent_held(
            self.alloc,
            self.endian,
            &self.signature,
            self.shift,
            bytes,
            place,
        ) {
            Ok(found) => Ok(found),
            Err(WireError::Memory) => Err(Memory),
            Err(WireError::Bad(_)) => unreachable!(),
        }
    }

    /// The codes of their types.
    pub fn codes(&self) -> &[u8]
        ensures { types_codes self.now ≡ result.now }
    {
        codes_held(
            self.endian,
            &self.signature,
            self.shift,
            self.bytes.as_slice(),
        )
    }

    /// Whether there is none.
    pub fn is_empty(&self) -> bool
        ensures { IsTrue result ↔ (self.now ≡ []) }
    {
        holds_none(
            self.endian,
            &self.signature,
            self.shift,
            self.bytes.as_slice(),
        )
    }

    /// Appends the spellings of the values one after the other, at offsets that count from the origin. What is refused
    /// for want of memory leaves the old bytes in front.
    ///
    /// In the order of bytes in which they were read, and where the offset is eights apart from the one at which they
    /// stood, the bytes are copied.
    pub fn push(&self, out: &mut Vec<u8>, origin: usize, endian: Endian) -> Result<(), Memory>
        requires origin { origin ≤ length out.old.items }
        requires short { length (spellings endian self.now (length out.old.items - origin)) < 2 ^ 32 }
        ensures ok { OnOk result (out.new.items ≡ out.old.items ++ spellings endian self.now (length out.old.items - origin)) }
        ensures err { OnErr result (Keeps out.old.items out.new.items) }
    {
        let bytes = self.bytes.as_slice();
        if self.endian == endian && self.shift % WIDEST == (out.len() - origin) % WIDEST {
            return push_spelt(out, origin, endian, &self.signature, self.shift, bytes);
        }
        let values = values_held(self.alloc, self.endian, &self.signature, self.shift, bytes)?;
        push_values(out, origin, endian, values.as_slice())
    }

    /// Appends the spellings of the values at the offset where the bytes end, in one pass and in place. For want of memory
    /// the bytes are as before.
    pub fn write(&self, endian: Endian, out: &mut Vec<u8>) -> Result<(), Memory>
        requires { length (spellings endian self.now (length out.old.items)) < 2 ^ 32 }
        ensures ok { OnOk result (out.new.items ≡ out.old.items ++ spellings endian self.now (length out.old.items)) }
        ensures err { OnErr result (out.new.items ≡ out.old.items) }
    {
        let end = out.as_slice().len();
        let written = self.push(out, 0, endian);
        if written.is_err() {
            out.truncate(end);
        }
        written
    }
}
