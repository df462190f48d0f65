//! Writes values.

ghost use Rattle.std.specs.Prelude.{◌≡◌, ◌<◌, ◌≤◌, ◌-◌, ◌^◌, ◌++◌, drop, length, OnOk, OnErr};
ghost use Rattle.dbus_signature.specs.declared.kind.Kind.{Kind};
ghost use Rattle.dbus_wire.specs.Appending.{Keeps};
ghost use Rattle.dbus_wire.specs.Fits.{Fits, HasSpelling, Spells};
ghost use Rattle.dbus_wire.specs.Spelling.{array_spelling, in_row, packed_row, spelling, spellings};
ghost use Rattle.dbus_wire.specs.Values.{max_open};

use crate::alignment::{basic_alignment, element_alignment};
use crate::numbers::{
    push_padding, push_signature, push_text, push_u16, push_u32, push_u64, set_u32,
};
use crate::packed::push_elements;
use crate::value::{Endian, Packed, Value};
use fw_base::Memory;

/// Appends the spelling of a value at the offset where the bytes end, which counts from the origin.
#[cycle(writing)]
#[tactic(auto, using(crate::proofs::SpellingLaws::spelt, crate::proofs::KeepsLaws::keeping))]
fn push_value(out: &mut Vec<u8>, origin: usize, endian: Endian, value: &Value) -> Result<(), Memory>
    requires origin { origin ≤ length out.old.items }
    requires short { length (spelling endian value.now (length out.old.items - origin)) < 2 ^ 32 }
    ensures ok { OnOk result (out.new.items ≡ out.old.items ++ spelling endian value.now (length out.old.items - origin)) }
    ensures err { OnErr result (Keeps out.old.items out.new.items) }
{
    match value {
        Value::Byte(byte) => {
            out.push(*byte)?;
            Ok(())
        }
        Value::Bool(truth) => push_u32(out, origin, endian, if *truth { 1 } else { 0 }),
        Value::I16(number) => push_u16(out, origin, endian, number.cast_unsigned()),
        Value::U16(number) => push_u16(out, origin, endian, *number),
        Value::I32(number) => push_u32(out, origin, endian, number.cast_unsigned()),
        Value::U32(number) => push_u32(out, origin, endian, *number),
        Value::Fd(number) => push_u32(out, origin, endian, *number),
        Value::I64(number) => push_u64(out, origin, endian, number.cast_unsigned()),
        Value::U64(number) => push_u64(out, origin, endian, *number),
        Value::Double(number) => push_u64(out, origin, endian, *number),
        Value::Str(text) => push_text(out, origin, endian, text.as_str()),
        Value::Path(text) => push_text(out, origin, endian, text.as_str()),
        Value::Sig(signature) => push_signature(out, signature.as_bytes()),
        Value::Packed(elements) => {
            let align = basic_alignment(elements.basic());
            push_packed(out, origin, endian, align, elements)
        }
        Value::Array(signature, items) => {
            let align = element_alignment(signature.as_bytes());
            push_array(out, origin, endian, align, items.as_slice())
        }
        Value::Struct(members) => {
            push_padding(out, origin, 8)?;
            push_values(out, origin, endian, members.as_slice())
        }
        Value::Pair(key, inner) => {
            push_padding(out, origin, 8)?;
            push_value(out, origin, endian, key.get())?;
            push_value(out, origin, endian, inner.get())
        }
        Value::Variant(signature, inner) => {
            push_signature(out, signature.as_bytes())?;
            push_value(out, origin, endian, inner.get())
        }
    }
}

/// Appends the spellings of values one after the other, at offsets that count from the origin. What is refused for want
/// of memory leaves the old bytes in front.
#[cycle(writing)]
#[tactic(auto, using(crate::proofs::KeepsLaws::keeping))]
pub fn push_values(
    out: &mut Vec<u8>,
    origin: usize,
    endian: Endian,
    values: &[Value],
) -> Result<(), Memory>
    requires origin { origin ≤ length out.old.items }
    requires short { length (spellings endian values.now (length out.old.items - origin)) < 2 ^ 32 }
    ensures ok { OnOk result (out.new.items ≡ out.old.items ++ spellings endian values.now (length out.old.items - origin)) }
    ensures err { OnErr result (Keeps out.old.items out.new.items) }
{
    for value in values {
        push_value(out, origin, endian, value)?;
    }
    Ok(())
}

/// Appends an array of values that are aligned so: its length in bytes, padding, and the values.
#[cycle(writing)]
#[tactic(auto, using(crate::proofs::KeepsLaws::keeping))]
fn push_array(
    out: &mut Vec<u8>,
    origin: usize,
    endian: Endian,
    align: usize,
    values: &[Value],
) -> Result<(), Memory>
    requires origin { origin ≤ length out.old.items }
    requires some { 0 < align }
    requires aligned { align ≤ 8 }
    requires short { length (array_spelling endian align (spellings endian values.now) (length out.old.items - origin)) < 2 ^ 32 }
    ensures ok { OnOk result (out.new.items ≡ out.old.items ++ array_spelling endian align (spellings endian values.now) (length out.old.items - origin)) }
    ensures err { OnErr result (Keeps out.old.items out.new.items) }
{
    push_padding(out, origin, 4)?;
    let place = out.len();
    out.extend_from_slice(&[0; 4])?;
    push_padding(out, origin, align)?;
    let start = out.len();
    push_values(out, origin, endian, values)?;
    let count = (out.len() - start) as u32;
    set_u32(out, place, endian, count);
    Ok(())
}

/// Appends an array of packed elements that are aligned so: its length in bytes, padding, and the elements.
#[tactic(auto, using(crate::proofs::KeepsLaws::keeping))]
fn push_packed(
    out: &mut Vec<u8>,
    origin: usize,
    endian: Endian,
    align: usize,
    elements: &Packed,
) -> Result<(), Memory>
    requires origin { origin ≤ length out.old.items }
    requires some { 0 < align }
    requires aligned { align ≤ 8 }
    requires short { length (array_spelling endian align (in_row (packed_row endian elements.now)) (length out.old.items - origin)) < 2 ^ 32 }
    ensures ok { OnOk result (out.new.items ≡ out.old.items ++ array_spelling endian align (in_row (packed_row endian elements.now)) (length out.old.items - origin)) }
    ensures err { OnErr result (Keeps out.old.items out.new.items) }
{
    push_padding(out, origin, 4)?;
    let place = out.len();
    out.extend_from_slice(&[0; 4])?;
    push_padding(out, origin, align)?;
    let start = out.len();
    push_elements(out, origin, endian, elements)?;
    let count = (out.len() - start) as u32;
    set_u32(out, place, endian, count);
    Ok(())
}

/// Appends a value's one spelling at the offset where the bytes end, in one pass and in place.
///
/// Needs a value that has a spelling there, of less than 4 GiB; a message has less. For want of memory the bytes are
/// as before.
pub fn write_value(value: &Value, endian: Endian, out: &mut Vec<u8>) -> Result<(), Memory>
    requires spelt { HasSpelling endian (length out.old.items) value.now }
    requires short { length (spelling endian value.now (length out.old.items)) < 2 ^ 32 }
    ensures ok { OnOk result (out.new.items ≡ out.old.items ++ spelling endian value.now (length out.old.items)) }
    // What was appended spells the value, as each type as which it has a spelling there.
    ensures spells { OnOk result ((kind : Kind) → Fits endian max_open kind (length out.old.items) value.now
        → Spells endian kind (length out.old.items) (drop (length out.old.items) out.new.items) value.now) }
    ensures err { OnErr result (out.new.items ≡ out.old.items) }
{
    let end = out.as_slice().len();
    let written = push_value(out, 0, endian, value);
    if written.is_err() {
        out.truncate(end);
    }
    written
}
