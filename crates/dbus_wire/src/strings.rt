//! Reads texts, object paths and signatures.

ghost use Rattle.std.specs.Prelude.{◌≡◌, ◌+◌, ◌≤◌, length, take, drop, IfOk, IfSome, IfNone, true, false};
ghost use Rattle.dbus_signature.specs.Cursors.{read_at, seen};
ghost use Rattle.dbus_signature.specs.Reading.{Gives};
ghost use Rattle.dbus_wire.specs.Texts.{is_text, is_path, is_string};
ghost use Rattle.dbus_wire.specs.Fields.{closed_at, codes_at, ended_at, signature_at, text_at, type_at};
ghost use Rattle.dbus_signature.specs.Signatures.{IsKind, IsSignature};
ghost use Rattle.dbus_wire.specs.Seen.{seen_codes, seen_type};

use crate::fields::{byte_at, u32_at, zeros_at};
use crate::texts::{as_text, is_path};
use crate::value::Endian;
use dbus_signature::{Cursor, Kind, Signature, WireError, kinds_at, one_kind_at};
use fw_base::Text;
use std::alloc::Global;

/// What a string holds.
#[derive(Clone, Copy)]
pub enum StringKind {
    Text,
    Path,
}

/// The bytes as a text, where a string of the kind may hold them.
fn valid(kind: StringKind, bytes: &[u8]) -> Option<&str>
    ensures text { IfSome result (λ text. (text.now ≡ bytes.now) × (is_string kind bytes.now ≡ true)) }
    ensures none { IfNone result (is_string kind bytes.now ≡ false) }
{
    let text = as_text(bytes)?;
    match kind {
        StringKind::Text => Some(text),
        StringKind::Path if is_path(bytes) => Some(text),
        StringKind::Path => None,
    }
}

/// A string of so many bytes, and its closing NUL.
#[tactic(auto, unfolding(crate::specs::Fields::ended_at))]
fn ended_at(
    alloc: Global,
    kind: StringKind,
    count: usize,
    from: Cursor<'_>,
) -> Result<(Text, Cursor<'_>), WireError>
    ensures { Gives seen result (read_at (ended_at (is_string kind) count) from.entry) }
{
    if from.rest.len() < count {
        return Err(WireError::Bad(from.at));
    }
    let (front, rest) = from.rest.split_at(count);
    let Some(text) = valid(kind, front) else {
        return Err(WireError::Bad(from.at));
    };
    let end = Cursor {
        at: from.at + count,
        rest,
    };
    let ((), after) = zeros_at(1, end)?;
    let text = Text::of(alloc, text)?;
    Ok((text, after))
}

/// A string behind its length.
#[tactic(auto, unfolding(crate::specs::Fields::text_at))]
pub fn string_at(
    alloc: Global,
    endian: Endian,
    kind: StringKind,
    from: Cursor<'_>,
) -> Result<(Text, Cursor<'_>), WireError>
    ensures { Gives seen result (read_at (text_at (is_string kind) endian) from.entry) }
{
    let (count, start) = u32_at(endian, from)?;
    ended_at(alloc, kind, count as usize, start)
}

/// The first bytes, as many as are there of so many, and the others.
pub fn front_of(bytes: &[u8], count: usize) -> (&[u8], &[u8])
    ensures front { result.0.now ≡ take count bytes.now }
    ensures others { result.1.now ≡ drop count bytes.now }
{
    if bytes.len() < count {
        (bytes, &[])
    } else {
        bytes.split_at(count)
    }
}

/// The codes of a signature behind their length, as many as are there, and the cursor behind them.
#[tactic(auto, unfolding(crate::specs::Fields::codes_at))]
fn codes_at(from: Cursor<'_>) -> Result<(Cursor<'_>, Cursor<'_>), WireError>
    ensures exact { Gives seen_codes result (read_at codes_at from.entry) }
    ensures short { IfOk result (λ found. length found.0.rest.now ≤ 255) }
{
    let (count, start) = byte_at(from)?;
    let (front, rest) = front_of(start.rest, count as usize);
    let codes = Cursor {
        at: start.at,
        rest: front,
    };
    let end = Cursor {
        at: start.at + front.len(),
        rest,
    };
    Ok((codes, end))
}

/// The signature of these codes, behind the NUL that closes it.
fn closed_at<'a>(
    alloc: Global,
    codes: &[u8],
    end: Cursor<'a>,
) -> Result<(Signature, Cursor<'a>), WireError>
    requires { IsSignature codes.now }
    ensures { Gives seen result (read_at (closed_at codes.now) end.entry) }
{
    let ((), after) = zeros_at(1, end)?;
    Ok((Signature::of_text(alloc, codes)?, after))
}

/// A signature behind its length.
///
/// The place of Bad is that of the first code that no signature has there, or of the byte that is missing.
#[tactic(auto, unfolding(crate::specs::Fields::signature_at))]
pub fn signature_at(alloc: Global, from: Cursor<'_>) -> Result<(Signature, Cursor<'_>), WireError>
    ensures { Gives seen result (read_at signature_at from.entry) }
{
    let (codes, end) = codes_at(from)?;
    kinds_at(alloc, codes)?;
    closed_at(alloc, codes.rest, end)
}

/// A signature of one complete type, and that type.
///
/// The place of Bad is as for a signature; the first code of a second type is at fault.
#[tactic(auto, unfolding(crate::specs::Fields::type_at))]
pub fn type_at(alloc: Global, from: Cursor<'_>) -> Result<(Kind, Signature, Cursor<'_>), WireError>
    ensures exact { Gives seen_type result (read_at type_at from.entry) }
    ensures valid { IfOk result (λ found. IsKind found.0) }
{
    let (codes, end) = codes_at(from)?;
    let (kind, last) = one_kind_at(alloc, codes)?;
    if !last.rest.is_empty() {
        return Err(WireError::Bad(last.at));
    }
    let (signature, after) = closed_at(alloc, codes.rest, end)?;
    Ok((kind, signature, after))
}
