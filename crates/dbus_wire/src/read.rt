//! Reads a value out of bytes.

ghost use Rattle.std.specs.Prelude.{◌≡◌, ◌≤◌, ◌+◌, ◌++◌, ℕ, List, length, drop, IfOk, Ok};
ghost use Rattle.dbus_signature.specs.Cursors.{read_at, seen};
ghost use Rattle.dbus_signature.specs.Reading.{Gives};
ghost use Rattle.dbus_signature.specs.Signatures.{all_kinds, IsOneType, SpellsType};
ghost use Rattle.dbus_signature.specs.declared.kind.Kind.{Kind};
ghost use Rattle.dbus_wire.specs.declared.value.Value.{Value as Spelt};
ghost use Rattle.dbus_wire.specs.Fits.{Spells, SpeltThere};
ghost use Rattle.dbus_wire.specs.Values.{value_of, values_of};

use crate::containers::{Context, members_at, value_at};
use crate::value::{Endian, Value};
use dbus_signature::{Cursor, Signature, WireError, kinds_at};
use sqlite_items::Items;
use std::alloc::Global;

/// How many containers may be open at a place: arrays, structs, entries of dicts and variants.
const MAX_OPEN: u8 = 64;

/// A value by a signature, as `value_at` reads it.
fn value_of(
    alloc: Global,
    signature: &Signature,
    bytes: &[u8],
    offset: usize,
    endian: Endian,
) -> Result<(Value, usize), WireError>
    requires one { IsOneType signature.now }
    requires within { offset ≤ length bytes.now }
    ensures { (kind : Kind) → SpellsType signature.now kind → Gives (λ found. found) result (value_of endian kind offset bytes.now) }
{
    let kind = signature.kind(alloc)?;
    let (_, rest) = bytes.split_at(offset);
    let from = Cursor { at: offset, rest };
    let context = Context {
        alloc,
        endian,
        room: MAX_OPEN,
    };
    let (value, after) = value_at(context, &kind, from)?;
    Ok((value, after.at))
}

/// The value of the signature's one type at an offset, and the offset after it.
///
/// Bad comes exactly where no such value stands there. Its place is the first byte of the first field (padding byte,
/// number, length, type code, text, closing NUL) that breaks its own rule or runs over its array or the bytes.
pub fn read_value(
    alloc: Global,
    signature: &Signature,
    bytes: &[u8],
    offset: usize,
    endian: Endian,
) -> Result<(Value, usize), WireError>
    requires one { IsOneType signature.now }
    requires within { offset ≤ length bytes.now }
    // What is read is spelt there.
    ensures found { IfOk result (λ found. (kind : Kind) → SpellsType signature.now kind → SpeltThere endian kind offset bytes.now found) }
    // What is spelt there is read, unless memory runs out.
    ensures only { (kind : Kind) (found : Spelt × ℕ) → SpellsType signature.now kind → SpeltThere endian kind offset bytes.now found → Gives (λ read. read) result (Ok found) }
    // Which value and offset it is, or which place is at fault.
    ensures exact { (kind : Kind) → SpellsType signature.now kind → Gives (λ read. read) result (value_of endian kind offset bytes.now) }
{
    value_of(alloc, signature, bytes, offset, endian)
}

/// The values of a signature's types one after the other at an offset, and the offset after them.
///
/// Bad comes exactly where no such values stand there, with the place as for `read_value`.
pub fn read_values(
    alloc: Global,
    signature: &Signature,
    bytes: &[u8],
    offset: usize,
    endian: Endian,
) -> Result<(Items<Value>, usize), WireError>
    requires { offset ≤ length bytes.now }
    ensures { (kinds : List Kind) → all_kinds signature.now ≡ Ok kinds → Gives (λ found. found) result (values_of endian kinds offset bytes.now) }
{
    let codes = Cursor {
        at: 0,
        rest: signature.as_bytes(),
    };
    let kinds = kinds_at(alloc, codes)?;
    let (_, rest) = bytes.split_at(offset);
    let from = Cursor { at: offset, rest };
    let context = Context {
        alloc,
        endian,
        room: MAX_OPEN,
    };
    let (values, after) = members_at(context, kinds.as_slice(), from)?;
    Ok((values, after.at))
}
