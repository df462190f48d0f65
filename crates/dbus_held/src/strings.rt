//! Where texts, paths and signatures end.

ghost use Rattle.std.specs.Prelude.{◌≡◌, ◌≤◌, ◌+◌, length, take, drop, true, false, IfOk, IfSome, IfNone};
ghost use Rattle.dbus_signature.specs.Cursors.{read_at, seen};
ghost use Rattle.dbus_signature.specs.Reading.{Gives};
ghost use Rattle.dbus_signature.specs.Signatures.{IsKind, IsSignature};
ghost use Rattle.dbus_wire.specs.Fields.{byte_at, codes_at, ended_at, signature_at, text_at};
ghost use Rattle.dbus_wire.specs.Seen.{seen_codes};
ghost use Rattle.dbus_wire.specs.Texts.{is_text, is_path, is_path_letter, path_goes_on};
ghost use Rattle.dbus_held.specs.Ends.{ended_end, signature_end, text_end, type_end};
ghost use Rattle.dbus_held.specs.Strings.{is_string};

use crate::fields::{u32_at, zeros_at};
use dbus_signature::{Cursor, Kind, WireError, kinds_at, one_kind_at};
use dbus_wire::Endian;
use std::alloc::Global;

/// What a string holds.
#[derive(Clone, Copy)]
pub enum Holds {
    Text,
    Path,
}

/// A letter of an element of a path.
fn is_path_letter(letter: u8) -> bool
    ensures { result ≡ is_path_letter letter }
{
    matches!(letter, b'A'..=b'Z' | b'a'..=b'z' | b'0'..=b'9' | b'_')
}

/// Whether bytes follow in a path, where a letter may be due.
fn path_goes_on(bytes: &[u8]) -> bool
    ensures { result ≡ path_goes_on true bytes.now }
{
    let mut due = true;
    for byte in bytes {
        if *byte == b'/' {
            if due {
                return false;
            }
            due = true;
        } else {
            if !is_path_letter(*byte) {
                return false;
            }
            due = false;
        }
    }
    !due
}

/// Whether a text is an object path (D-Bus Specification, "Valid Object Paths").
fn is_path(bytes: &[u8]) -> bool
    ensures { result ≡ is_path bytes.now }
{
    match bytes {
        [] => false,
        [only] => *only == b'/',
        [first, others @ ..] => *first == b'/' && path_goes_on(others),
    }
}

/// The bytes as a text, where they are UTF-8 without a NUL.
fn as_text(bytes: &[u8]) -> Option<&str>
    ensures text { IfSome result (λ text. (text.now ≡ bytes.now) × (is_text bytes.now ≡ true)) }
    ensures none { IfNone result (is_text bytes.now ≡ false) }
{
    let Ok(text) = str::from_utf8(bytes) else {
        return None;
    };
    if bytes.contains(&0) { None } else { Some(text) }
}

/// The bytes as a text, where a string may hold them.
fn valid(holds: Holds, bytes: &[u8]) -> Option<&str>
    ensures text { IfSome result (λ text. (text.now ≡ bytes.now) × (is_string holds bytes.now ≡ true)) }
    ensures none { IfNone result (is_string holds bytes.now ≡ false) }
{
    let text = as_text(bytes)?;
    match holds {
        Holds::Text => Some(text),
        Holds::Path if is_path(bytes) => Some(text),
        Holds::Path => None,
    }
}

/// The end of a string of so many bytes, and of its closing NUL.
#[tactic(auto, unfolding(crate::specs::Ends::ended_end))]
fn ended_end(holds: Holds, count: usize, from: Cursor<'_>) -> Result<((), Cursor<'_>), WireError>
    ensures { Gives seen result (read_at (ended_end (is_string holds) count) from.entry) }
{
    if from.rest.len() < count {
        return Err(WireError::Bad(from.at));
    }
    let (front, rest) = from.rest.split_at(count);
    if valid(holds, front).is_none() {
        return Err(WireError::Bad(from.at));
    }
    let end = Cursor {
        at: from.at + count,
        rest,
    };
    zeros_at(1, end)
}

/// A string of so many bytes, lent, and the cursor behind its closing NUL.
#[tactic(auto, unfolding(dbus_wire::specs::Fields::ended_at))]
fn ended_at<'a>(
    holds: Holds,
    count: usize,
    from: Cursor<'a>,
) -> Result<(&'a str, Cursor<'a>), WireError>
    ensures { Gives (λ found. (found.0.now, found.1.at, found.1.rest.now)) result (read_at (ended_at (is_string holds) count) from.entry) }
{
    if from.rest.len() < count {
        return Err(WireError::Bad(from.at));
    }
    let (front, rest) = from.rest.split_at(count);
    let Some(text) = valid(holds, front) else {
        return Err(WireError::Bad(from.at));
    };
    let end = Cursor {
        at: from.at + count,
        rest,
    };
    let ((), after) = zeros_at(1, end)?;
    Ok((text, after))
}

/// A string, lent.
#[tactic(auto, unfolding(dbus_wire::specs::Fields::text_at))]
pub fn string_at<'a>(
    endian: Endian,
    holds: Holds,
    from: Cursor<'a>,
) -> Result<(&'a str, Cursor<'a>), WireError>
    ensures { Gives (λ found. (found.0.now, found.1.at, found.1.rest.now)) result (read_at (text_at (is_string holds) endian) from.entry) }
{
    let (count, start) = u32_at(endian, from)?;
    ended_at(holds, count as usize, start)
}

/// The end of a string.
#[tactic(auto, unfolding(crate::specs::Ends::text_end))]
pub fn string_end(
    endian: Endian,
    holds: Holds,
    from: Cursor<'_>,
) -> Result<((), Cursor<'_>), WireError>
    ensures { Gives seen result (read_at (text_end (is_string holds) endian) from.entry) }
{
    let (count, start) = u32_at(endian, from)?;
    ended_end(holds, count as usize, start)
}

/// The first bytes, as many as are there of so many, and the others.
pub fn front_of(bytes: &[u8], count: usize) -> (&[u8], &[u8])
    ensures front { result.0.now ≡ take count bytes.now }
    ensures others { result.1.now ≡ drop count bytes.now }
{
    if bytes.len() < count {
        (bytes, &[])
    } else {
        bytes.split_at(count)
    }
}

/// A byte.
#[tactic(auto, unfolding(dbus_wire::specs::Fields::byte_at))]
pub fn byte_at(from: Cursor<'_>) -> Result<(u8, Cursor<'_>), WireError>
    ensures { Gives seen result (read_at byte_at from.entry) }
{
    from.next().ok_or(WireError::Bad(from.at))
}

/// The codes of a signature behind their length, as many as are there, and the cursor behind them.
#[tactic(auto, unfolding(dbus_wire::specs::Fields::codes_at))]
fn codes_at(from: Cursor<'_>) -> Result<(Cursor<'_>, Cursor<'_>), WireError>
    ensures exact { Gives seen_codes result (read_at codes_at from.entry) }
    ensures short { IfOk result (λ found. length found.0.rest.now ≤ 255) }
{
    let (count, start) = byte_at(from)?;
    let (front, rest) = front_of(start.rest, count as usize);
    let codes = Cursor {
        at: start.at,
        rest: front,
    };
    let end = Cursor {
        at: start.at + front.len(),
        rest,
    };
    Ok((codes, end))
}

/// A signature, lent.
#[tactic(auto, unfolding(dbus_wire::specs::Fields::signature_at))]
pub fn signature_at<'a>(
    alloc: Global,
    from: Cursor<'a>,
) -> Result<(&'a [u8], Cursor<'a>), WireError>
    ensures exact { Gives (λ found. (found.0.now, found.1.at, found.1.rest.now)) result (read_at signature_at from.entry) }
    ensures valid { IfOk result (λ found. IsSignature found.0.now) }
{
    let (codes, end) = codes_at(from)?;
    kinds_at(alloc, codes)?;
    let ((), after) = zeros_at(1, end)?;
    Ok((codes.rest, after))
}

/// The end of a signature.
#[tactic(auto, unfolding(crate::specs::Ends::signature_end))]
pub fn signature_end(alloc: Global, from: Cursor<'_>) -> Result<((), Cursor<'_>), WireError>
    ensures { Gives seen result (read_at signature_end from.entry) }
{
    let (codes, end) = codes_at(from)?;
    kinds_at(alloc, codes)?;
    zeros_at(1, end)
}

/// The type that a signature of one complete type is of, and its end.
#[tactic(auto, unfolding(crate::specs::Ends::type_end))]
pub fn type_end(alloc: Global, from: Cursor<'_>) -> Result<(Kind, Cursor<'_>), WireError>
    ensures exact { Gives seen result (read_at type_end from.entry) }
    ensures valid { IfOk result (λ found. IsKind found.0) }
{
    let (codes, end) = codes_at(from)?;
    let (kind, last) = one_kind_at(alloc, codes)?;
    if !last.rest.is_empty() {
        return Err(WireError::Bad(last.at));
    }
    let ((), after) = zeros_at(1, end)?;
    Ok((kind, after))
}
