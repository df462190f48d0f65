//! Reads header fields out of a message's bytes, one by one.

ghost use Rattle.std.specs.Prelude.{◌≡◌, ◌≤◌, length, IfOk, MatchBool, MatchOption, None, Some};
ghost use Rattle.dbus_signature.specs.Cursors.{read_at};
ghost use Rattle.dbus_signature.specs.Reading.{Gives};
ghost use Rattle.dbus_signature.specs.Signatures.{IsKind};
ghost use Rattle.dbus_msg.specs.FieldReading.{content_at, field_at, fields_one_by_one, IsSound, seen_content, seen_field, take_field, take_fields, told_at, told_in, told_of};

use crate::known::{Known, put};
use dbus_held::{
    Context, Holds, byte_at, front_of, head_at, padding_at, signature_at, string_at, type_end,
    u32_at, value_end,
};
use dbus_signature::{Basic, Cursor, Kind, WireError};
use dbus_wire::Endian;
use fw_base::Memory;
use std::alloc::Global;

/// How many containers may be opened in a header field's variant: it stands in a struct, and this in the array, of the
/// 64 that may be open (D-Bus Specification, "Message Format").
const ROOM: u8 = 61;

/// What the variant of a header field holds, lent, as far as fields may hold it (D-Bus Specification, "Header Fields").
#[derive(Clone, Copy)]
pub enum Inner<'a> {
    Path(&'a str),
    Text(&'a str),
    /// The codes of a signature.
    Signature(&'a [u8]),
    Number(u32),
    /// A value of any other type.
    Other,
}

/// The types that known fields have.
#[derive(Clone, Copy)]
pub enum Told {
    Path,
    Text,
    Signature,
    Number,
}

fn told_of(basic: Basic) -> Option<Told>
    ensures { result ≡ told_of basic }
{
    match basic {
        Basic::Path => Some(Told::Path),
        Basic::Str => Some(Told::Text),
        Basic::Sig => Some(Told::Signature),
        Basic::U32 => Some(Told::Number),
        _ => None,
    }
}

/// Which of these a type is, if it is one.
fn told_in(kind: &Kind) -> Option<Told>
    ensures { result ≡ told_in kind.now }
{
    match kind {
        Kind::Basic(basic) => told_of(*basic),
        _ => None,
    }
}

/// A value of such a type.
fn told_at<'a>(
    alloc: Global,
    endian: Endian,
    told: Told,
    from: Cursor<'a>,
) -> Result<(Inner<'a>, Cursor<'a>), WireError>
    ensures exact { Gives seen_content result (read_at (told_at endian told) from.entry) }
    ensures sound { IfOk result (λ found. IsSound found.0) }
{
    match told {
        Told::Path => {
            let (path, after) = string_at(endian, Holds::Path, from)?;
            Ok((Inner::Path(path), after))
        }
        Told::Text => {
            let (text, after) = string_at(endian, Holds::Text, from)?;
            Ok((Inner::Text(text), after))
        }
        Told::Signature => {
            let (codes, after) = signature_at(alloc, from)?;
            Ok((Inner::Signature(codes), after))
        }
        Told::Number => {
            let (number, after) = u32_at(endian, from)?;
            Ok((Inner::Number(number), after))
        }
    }
}

/// A value of a type that no known field has, which is passed over.
fn other_at<'a>(
    alloc: Global,
    endian: Endian,
    kind: &Kind,
    from: Cursor<'a>,
) -> Result<(Inner<'a>, Cursor<'a>), WireError>
    requires kind { IsKind kind.now }
    requires other { told_in kind.now ≡ None }
    ensures exact { Gives seen_content result (read_at (content_at endian kind.now) from.entry) }
    ensures sound { IfOk result (λ found. IsSound found.0) }
{
    let context = Context {
        alloc,
        endian,
        room: ROOM,
    };
    let ((), after) = value_end(context, kind, from)?;
    Ok((Inner::Other, after))
}

/// A value of a type.
fn content_at<'a>(
    alloc: Global,
    endian: Endian,
    kind: &Kind,
    from: Cursor<'a>,
) -> Result<(Inner<'a>, Cursor<'a>), WireError>
    requires { IsKind kind.now }
    ensures exact { Gives seen_content result (read_at (content_at endian kind.now) from.entry) }
    ensures sound { IfOk result (λ found. IsSound found.0) }
{
    match told_in(kind) {
        Some(told) => told_at(alloc, endian, told, from),
        None => other_at(alloc, endian, kind, from),
    }
}

/// A header field: its code, and what its variant holds.
#[tactic(auto, unfolding(crate::specs::FieldReading::field_at))]
fn field_at<'a>(
    alloc: Global,
    endian: Endian,
    from: Cursor<'a>,
) -> Result<(u8, Inner<'a>, Cursor<'a>), WireError>
    ensures exact { Gives seen_field result (read_at (field_at endian) from.entry) }
    ensures sound { IfOk result (λ found. IsSound found.1) }
{
    let ((), start) = padding_at(8, from)?;
    let (code, start) = byte_at(start)?;
    let (kind, start) = type_end(alloc, start)?;
    let (inner, after) = content_at(alloc, endian, &kind, start)?;
    Ok((code, inner, after))
}

/// Takes the header field that begins here in, and gives the cursor behind it; None where it is at fault.
#[tactic(auto, unfolding(crate::specs::FieldReading::take_field))]
fn take_field<'a>(
    alloc: Global,
    endian: Endian,
    known: &mut Known,
    from: Cursor<'a>,
) -> Result<Option<Cursor<'a>>, Memory>
    ensures { IfOk result (λ found. MatchOption found (take_field endian known.old from.entry.at from.entry.rest.now ≡ None) (λ after. take_field endian known.old from.entry.at from.entry.rest.now ≡ Some (known.new, after.at, after.rest.now))) }
{
    match field_at(alloc, endian, from) {
        Ok((code, inner, after)) => Ok(put(alloc, known, code, &inner)?.then_some(after)),
        Err(WireError::Bad(_)) => Ok(None),
        Err(WireError::Memory) => Err(Memory),
    }
}

/// Takes the header fields of all bytes from here on in; false where one is at fault. Each takes a byte at least, so there
/// are no more than bytes.
fn take_fields(
    alloc: Global,
    endian: Endian,
    known: &mut Known,
    from: Cursor<'_>,
) -> Result<bool, Memory>
    ensures { IfOk result (λ fit. MatchBool fit (take_fields endian (length from.entry.rest.now) known.old from.entry.at from.entry.rest.now ≡ Some known.new) (take_fields endian (length from.entry.rest.now) known.old from.entry.at from.entry.rest.now ≡ None)) }
{
    let mut next = from;
    for _ in 0..from.rest.len() {
        if next.rest.is_empty() {
            break;
        }
        let Some(after) = take_field(alloc, endian, known, next)? else {
            return Ok(false);
        };
        next = after;
    }
    Ok(next.rest.is_empty())
}

/// The known header fields of a message, whose length stands at an offset; None where they are at fault.
pub fn fields_one_by_one(
    alloc: Global,
    endian: Endian,
    at: usize,
    bytes: &[u8],
) -> Result<Option<Known>, Memory>
    requires { at ≤ length bytes.now }
    ensures { IfOk result (λ known. known ≡ fields_one_by_one endian at bytes.now) }
{
    let (_, rest) = bytes.split_at(at);
    let (count, first) = match head_at(endian, 8, Cursor { at, rest }) {
        Ok(found) => found,
        Err(WireError::Bad(_)) => return Ok(None),
        Err(WireError::Memory) => return Err(Memory),
    };
    if first.rest.len() < count {
        return Ok(None);
    }
    let (front, _) = first.rest.split_at(count);
    let fields = Cursor {
        at: first.at,
        rest: front,
    };
    let mut known = Known::none();
    let fit = take_fields(alloc, endian, &mut known, fields)?;
    Ok(fit.then_some(known))
}
