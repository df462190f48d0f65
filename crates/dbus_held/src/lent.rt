//! One of the values that are held.

ghost use Rattle.std.specs.Prelude.{◌≡◌, ◌≤◌, ◌<◌, length, take, drop, slice_get, All, IsTrue, Ok};
ghost use Rattle.dbus_signature.specs.Cursors.{read_at};
ghost use Rattle.dbus_signature.specs.Reading.{Gives};
ghost use Rattle.dbus_signature.specs.Signatures.{IsKind};
ghost use Rattle.dbus_signature.specs.declared.kind.Basic.TheVariants.{Byte};
ghost use Rattle.dbus_signature.specs.declared.kind.Kind.TheVariants.{Array as ArrayOf, Basic as Plain};
ghost use Rattle.dbus_wire.specs.Values.{max_open, value_at};
ghost use Rattle.dbus_held.specs.Ends.{members_end as members_end_at, value_end};
ghost use Rattle.dbus_held.specs.Holding.{held_values, IsHeld};
ghost use Rattle.dbus_held.specs.Lending.{bytes_of, lent_value, offset_of, shown, value_alone};

use crate::ends::{Context, head_at, is_byte, members_end};
use crate::strings::{Holds, front_of, string_at};
use dbus_signature::{Basic, Cursor, Kind, Signature, WireError, kinds_at};
use dbus_wire::{Endian, Value, read_value};
use fw_base::Memory;
use std::alloc::Global;

/// How many containers may be open at a place: arrays, structs, entries of dicts and variants.
const MAX_OPEN: u8 = 64;

/// A value that is held: texts, object paths and arrays of bytes are lent, others are given in their own form.
#[derive(Drop)]
pub enum Lent<'a> {
    Text(&'a str),
    Path(&'a str),
    /// An array of bytes.
    Bytes(&'a [u8]),
    Own(Value),
}

/// The bytes of an array of bytes.
#[tactic(auto, unfolding(crate::specs::Lending::bytes_of))]
fn bytes_at<'a>(endian: Endian, from: Cursor<'a>) -> Result<&'a [u8], WireError>
    ensures { Gives (λ bytes. bytes.now) result (bytes_of endian from.entry.at from.entry.rest.now) }
{
    let (count, first) = head_at(endian, 1, from)?;
    let (front, _) = front_of(first.rest, count);
    if first.rest.len() < count {
        return Err(WireError::Bad(first.at + front.len()));
    }
    Ok(front)
}

/// A value of a type at an offset, in its own form.
fn own_at(
    alloc: Global,
    endian: Endian,
    kind: &Kind,
    bytes: &[u8],
    at: usize,
) -> Result<Value, WireError>
    requires kind { IsKind kind.now }
    requires within { at ≤ length bytes.now }
    ensures { Gives (λ found. found) result (value_alone (value_at endian max_open kind.now at (drop at bytes.now))) }
{
    let signature = Signature::of_kind(alloc, kind)?;
    let (value, _) = read_value(alloc, &signature, bytes, at, endian)?;
    Ok(value)
}

/// A value of a basic type at an offset.
fn basic_lent_at<'a>(
    alloc: Global,
    endian: Endian,
    kind: &Kind,
    basic: Basic,
    bytes: &'a [u8],
    at: usize,
) -> Result<Lent<'a>, WireError>
    requires kind { IsKind kind.now }
    requires basic { kind.now ≡ Plain basic }
    requires within { at ≤ length bytes.now }
    ensures { Gives lent_value result (value_alone (value_at endian max_open kind.now at (drop at bytes.now))) }
{
    let (_, rest) = bytes.split_at(at);
    let from = Cursor { at, rest };
    match basic {
        Basic::Str => {
            let (text, _) = string_at(endian, Holds::Text, from)?;
            Ok(Lent::Text(text))
        }
        Basic::Path => {
            let (path, _) = string_at(endian, Holds::Path, from)?;
            Ok(Lent::Path(path))
        }
        _ => Ok(Lent::Own(own_at(alloc, endian, kind, bytes, at)?)),
    }
}

/// An array of bytes at an offset.
fn bytes_lent_at<'a>(
    endian: Endian,
    kind: &Kind,
    inner: &Kind,
    bytes: &'a [u8],
    at: usize,
) -> Result<Lent<'a>, WireError>
    requires array { kind.now ≡ ArrayOf inner.now }
    requires inner { inner.now ≡ Plain Byte }
    requires within { at ≤ length bytes.now }
    ensures { Gives lent_value result (value_alone (value_at endian max_open kind.now at (drop at bytes.now))) }
{
    let (_, rest) = bytes.split_at(at);
    let found = bytes_at(endian, Cursor { at, rest })?;
    Ok(Lent::Bytes(found))
}

/// A value of a type at an offset.
fn lent_at<'a>(
    alloc: Global,
    endian: Endian,
    kind: &Kind,
    bytes: &'a [u8],
    at: usize,
) -> Result<Lent<'a>, WireError>
    requires kind { IsKind kind.now }
    requires within { at ≤ length bytes.now }
    ensures { Gives lent_value result (value_alone (value_at endian max_open kind.now at (drop at bytes.now))) }
{
    match kind {
        Kind::Basic(basic) => basic_lent_at(alloc, endian, kind, *basic, bytes, at),
        Kind::Array(inner) if is_byte(inner.get()) => {
            bytes_lent_at(endian, kind, inner.get(), bytes, at)
        }
        _ => Ok(Lent::Own(own_at(alloc, endian, kind, bytes, at)?)),
    }
}

/// The offset behind values of types that begin at an offset.
fn offset_behind(
    alloc: Global,
    endian: Endian,
    kinds: &[Kind],
    bytes: &[u8],
    at: usize,
) -> Result<usize, WireError>
    requires kinds { All IsKind kinds.now }
    requires within { at ≤ length bytes.now }
    ensures { Gives (λ end. end) result (offset_of (members_end_at (value_end endian max_open) kinds.now at (drop at bytes.now))) }
{
    let (_, rest) = bytes.split_at(at);
    let from = Cursor { at, rest };
    let context = Context {
        alloc,
        endian,
        room: MAX_OPEN,
    };
    let ((), after) = members_end(context, kinds, from)?;
    Ok(after.at)
}

/// The value at a place of those that bytes spell, if there are so many.
pub fn lent_held<'a>(
    alloc: Global,
    endian: Endian,
    signature: &Signature,
    shift: usize,
    bytes: &'a [u8],
    place: usize,
) -> Result<Option<Lent<'a>>, WireError>
    requires { IsHeld endian signature.now shift bytes.now }
    ensures { Gives shown result (Ok (slice_get (held_values endian signature.now shift bytes.now) place)) }
{
    let codes = Cursor {
        at: 0,
        rest: signature.as_bytes(),
    };
    let kinds = kinds_at(alloc, codes)?;
    let Some(kind) = kinds.get(place) else {
        return Ok(None);
    };
    let (before, _) = kinds.as_slice().split_at(place);
    let at = offset_behind(alloc, endian, before, bytes, shift)?;
    Ok(Some(lent_at(alloc, endian, kind, bytes, at)?))
}
