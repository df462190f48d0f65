//! Reads types from their spelling.

ghost use Rattle.std.specs.Prelude.{◌≡◌, ◌<◌, length, IfOk, IfSome};
ghost use Rattle.dbus_signature.specs.Cursors.{place_in, read_at, seen, Shortens};
ghost use Rattle.dbus_signature.specs.Reading.{Gives};
ghost use Rattle.dbus_signature.specs.Signatures.{array_at, basic_at, basic_of, brace_at, closing, dict_at, kind_at, kinds_at, letter_at, members_at, plain_array_at, struct_at};

use crate::cursor::Cursor;
use crate::error::WireError;
use crate::kind::{Basic, Kind};
use sqlite_items::{Boxed, Items};
use std::alloc::Global;

/// How deep arrays may nest, and how deep structs may.
const MAX_NESTING: u8 = 32;

/// The basic type of a letter.
fn basic_of(letter: u8) -> Option<Basic>
    ensures { result ≡ basic_of letter }
{
    match letter {
        b'y' => Some(Basic::Byte),
        b'b' => Some(Basic::Bool),
        b'n' => Some(Basic::I16),
        b'q' => Some(Basic::U16),
        b'i' => Some(Basic::I32),
        b'u' => Some(Basic::U32),
        b'x' => Some(Basic::I64),
        b't' => Some(Basic::U64),
        b'd' => Some(Basic::Double),
        b's' => Some(Basic::Str),
        b'o' => Some(Basic::Path),
        b'g' => Some(Basic::Sig),
        b'h' => Some(Basic::Fd),
        _ => None,
    }
}

fn basic_at(from: Cursor<'_>) -> Result<(Basic, Cursor<'_>), WireError>
    ensures exact { Gives seen result (read_at basic_at from.entry) }
    ensures shorter { IfOk result (Shortens from.entry) }
{
    let Some((letter, after)) = from.next() else {
        return Err(WireError::Bad(from.at));
    };
    match basic_of(letter) {
        Some(basic) => Ok((basic, after)),
        None => Err(WireError::Bad(from.at)),
    }
}

fn brace_at(from: Cursor<'_>) -> Result<((), Cursor<'_>), WireError>
    ensures exact { Gives seen result (read_at brace_at from.entry) }
    ensures shorter { IfOk result (Shortens from.entry) }
{
    match from.next() {
        Some((b'}', after)) => Ok(((), after)),
        _ => Err(WireError::Bad(from.at)),
    }
}

/// One complete type, where so many arrays and so many structs may still be opened.
///
/// The place of Bad is the first byte that no such type has there, or the end where the text ends too soon.
#[cycle(kind)]
#[tactic(auto, using(crate::proofs::KindLaws::kind_at_opens))]
fn kind_at(
    alloc: Global,
    arrays: u8,
    structs: u8,
    from: Cursor<'_>,
) -> Result<(Kind, Cursor<'_>), WireError>
    ensures exact { Gives seen result (read_at (kind_at arrays structs) from.entry) }
    ensures shorter { IfOk result (Shortens from.entry) }
{
    let Some((letter, after)) = from.next() else {
        return Err(WireError::Bad(from.at));
    };
    match letter {
        b'a' if arrays == 0 => Err(WireError::Bad(from.at)),
        b'a' => array_at(alloc, arrays - 1, structs, after),
        b'(' if structs == 0 => Err(WireError::Bad(from.at)),
        b'(' => struct_at(alloc, arrays, structs - 1, after),
        b'v' => Ok((Kind::Variant, after)),
        _ => letter_at(from),
    }
}

#[tactic(auto, unfolding(crate::specs::Signatures::letter_at))]
fn letter_at(from: Cursor<'_>) -> Result<(Kind, Cursor<'_>), WireError>
    ensures exact { Gives seen result (read_at letter_at from.entry) }
    ensures shorter { IfOk result (Shortens from.entry) }
{
    let (basic, after) = basic_at(from)?;
    Ok((Kind::Basic(basic), after))
}

/// What stands behind the letter of an array.
#[cycle(kind)]
fn array_at(
    alloc: Global,
    arrays: u8,
    structs: u8,
    from: Cursor<'_>,
) -> Result<(Kind, Cursor<'_>), WireError>
    ensures exact { Gives seen result (read_at (array_at (kind_at arrays structs)) from.entry) }
    ensures shorter { IfOk result (Shortens from.entry) }
{
    match from.next() {
        Some((b'{', after)) => dict_at(alloc, arrays, structs, after),
        _ => plain_array_at(alloc, arrays, structs, from),
    }
}

#[cycle(kind)]
#[tactic(auto, unfolding(crate::specs::Signatures::plain_array_at))]
fn plain_array_at(
    alloc: Global,
    arrays: u8,
    structs: u8,
    from: Cursor<'_>,
) -> Result<(Kind, Cursor<'_>), WireError>
    ensures exact { Gives seen result (read_at (plain_array_at (kind_at arrays structs)) from.entry) }
    ensures shorter { IfOk result (Shortens from.entry) }
{
    let (element, after) = kind_at(alloc, arrays, structs, from)?;
    Ok((Kind::Array(Boxed::new(alloc, element)?), after))
}

/// An entry behind its opening brace.
#[cycle(kind)]
#[tactic(auto, unfolding(crate::specs::Signatures::dict_at))]
fn dict_at(
    alloc: Global,
    arrays: u8,
    structs: u8,
    from: Cursor<'_>,
) -> Result<(Kind, Cursor<'_>), WireError>
    ensures exact { Gives seen result (read_at (dict_at (kind_at arrays structs)) from.entry) }
    ensures shorter { IfOk result (Shortens from.entry) }
{
    let (key, after) = basic_at(from)?;
    let (value, after) = kind_at(alloc, arrays, structs, after)?;
    let ((), after) = brace_at(after)?;
    Ok((Kind::Dict(key, Boxed::new(alloc, value)?), after))
}

/// A struct behind its opening parenthesis.
#[cycle(kind)]
#[tactic(auto, unfolding(crate::specs::Signatures::struct_at))]
fn struct_at(
    alloc: Global,
    arrays: u8,
    structs: u8,
    from: Cursor<'_>,
) -> Result<(Kind, Cursor<'_>), WireError>
    ensures exact { Gives seen result (read_at (struct_at (kind_at arrays structs)) from.entry) }
    ensures shorter { IfOk result (Shortens from.entry) }
{
    let (members, after) = members_at(alloc, arrays, structs, from)?;
    Ok((Kind::Struct(members), after))
}

/// The cursor behind a closing parenthesis, where one stands.
fn closing(from: Cursor<'_>) -> Option<Cursor<'_>>
    ensures exact { place_in result ≡ closing from.entry.at from.entry.rest.now }
    ensures shorter { IfSome result (λ end. length end.rest.now < length from.entry.rest.now) }
{
    match from.next() {
        Some((b')', after)) => Some(after),
        _ => None,
    }
}

/// The members of a struct, and its closing parenthesis.
#[cycle(kind)]
fn members_at(
    alloc: Global,
    arrays: u8,
    structs: u8,
    from: Cursor<'_>,
) -> Result<(Items<Kind>, Cursor<'_>), WireError>
    ensures exact { Gives seen result (read_at (members_at (kind_at arrays structs) (length from.entry.rest.now)) from.entry) }
    ensures shorter { IfOk result (Shortens from.entry) }
{
    let mut members = Items::new(alloc);
    let mut next = from;
    loop {
        let (member, after) = kind_at(alloc, arrays, structs, next)?;
        members.push(member)?;
        if let Some(end) = closing(after) {
            return Ok((members, end));
        }
        next = after;
    }
}

/// One complete type at a cursor, within the limits.
///
/// The place of Bad is the first byte that no such type has there, or the end where the bytes end too soon.
pub fn one_kind_at(alloc: Global, from: Cursor<'_>) -> Result<(Kind, Cursor<'_>), WireError>
    ensures exact { Gives seen result (read_at (kind_at 32 32) from.entry) }
    ensures shorter { IfOk result (Shortens from.entry) }
{
    kind_at(alloc, MAX_NESTING, MAX_NESTING, from)
}

/// Types in a row, up to the end of the bytes.
pub fn kinds_at(alloc: Global, from: Cursor<'_>) -> Result<Items<Kind>, WireError>
    ensures { Gives (λ kinds. kinds) result (kinds_at (length from.entry.rest.now) from.entry.at from.entry.rest.now) }
{
    let mut kinds = Items::new(alloc);
    let mut next = from;
    while !next.rest.is_empty() {
        let (kind, after) = kind_at(alloc, MAX_NESTING, MAX_NESTING, next)?;
        kinds.push(kind)?;
        next = after;
    }
    Ok(kinds)
}
