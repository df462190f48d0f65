//! Where values end, by their type.

ghost use Rattle.std.specs.Prelude.{◌≡◌, ◌<◌, ◌-◌, ◌≤◌, length, All, IsTrue};
ghost use Rattle.dbus_signature.specs.declared.kind.Basic.TheVariants.{Byte};
ghost use Rattle.dbus_signature.specs.Cursors.{read_at, seen};
ghost use Rattle.dbus_signature.specs.Reading.{Gives};
ghost use Rattle.dbus_signature.specs.Signatures.{IsKind};
ghost use Rattle.dbus_signature.specs.declared.kind.Kind.TheVariants.{Basic as Plain};
ghost use Rattle.dbus_wire.specs.Alignment.{alignment};
ghost use Rattle.dbus_wire.specs.Arrays.{head_at};
ghost use Rattle.dbus_held.specs.Elements.{element_end, element_align, AreBytes, ElementIs};
ghost use Rattle.dbus_held.specs.Ends.{array_end, basic_end, closed_value_end, contents_end, entry_end, items_end, members_end, open_value_end, pair_end, struct_end, value_end, variant_end};

use crate::fields::{bool_end, byte_end, padding_at, plain_u32_at, u16_end, u32_end, u64_end};
use crate::strings::{Holds, front_of, signature_end, string_end, type_end};
use dbus_signature::{Basic, Cursor, Kind, WireError};
use dbus_wire::Endian;
use std::alloc::Global;

/// How many bytes an array may have (D-Bus Specification, "Marshalling containers").
const MAX_ARRAY: usize = 67_108_864;

/// How values are passed over: with which order of bytes, and how many containers may still be opened in one another.
#[derive(Clone, Copy)]
pub struct Context {
    pub alloc: Global,
    pub endian: Endian,
    pub room: u8,
}

impl Context {
    /// Within a container that is opened.
    fn opened(self) -> Context
        requires { 0 < self.room }
        ensures endian { result.endian ≡ self.endian }
        ensures room { result.room ≡ self.room - 1 }
    {
        Context {
            alloc: self.alloc,
            endian: self.endian,
            room: self.room - 1,
        }
    }
}

/// What an array holds: values of a type, or entries of a key and a value.
#[derive(Clone, Copy)]
pub enum Element<'a> {
    Whole(&'a Kind),
    Entry(Basic, &'a Kind),
}

/// What values of a basic type begin at a multiple of.
#[tactic(auto, using(dbus_signature::proofs::KindLaws::spellings))]
fn basic_alignment(basic: Basic) -> usize
    ensures exact { result ≡ alignment (Plain basic) }
    ensures some { 0 < result }
{
    match basic {
        Basic::Byte | Basic::Sig => 1,
        Basic::I16 | Basic::U16 => 2,
        Basic::Bool | Basic::I32 | Basic::U32 | Basic::Str | Basic::Path | Basic::Fd => 4,
        Basic::I64 | Basic::U64 | Basic::Double => 8,
    }
}

/// What values of a type begin at a multiple of (D-Bus Specification, "Marshaling (Wire Format)").
#[tactic(auto, using(dbus_signature::proofs::KindLaws::spellings))]
fn alignment(kind: &Kind) -> usize
    ensures exact { result ≡ alignment kind.now }
    ensures some { 0 < result }
{
    match kind {
        Kind::Basic(basic) => basic_alignment(*basic),
        Kind::Variant => 1,
        Kind::Array(_) | Kind::Dict(_, _) => 4,
        Kind::Struct(_) => 8,
    }
}

/// What elements begin at a multiple of.
fn element_align(element: Element<'_>) -> usize
    ensures exact { result ≡ element_align element.entry }
    ensures some { 0 < result }
{
    match element {
        Element::Whole(kind) => alignment(kind),
        Element::Entry(_, _) => 8,
    }
}

/// Whether a type is that of bytes.
pub fn is_byte(kind: &Kind) -> bool
    ensures { IsTrue result → kind.now ≡ Plain Byte }
{
    match kind {
        Kind::Basic(Basic::Byte) => true,
        _ => false,
    }
}

/// Whether elements are bytes.
fn are_bytes(element: Element<'_>) -> bool
    ensures { IsTrue result → AreBytes element.entry }
{
    match element {
        Element::Whole(kind) => is_byte(kind),
        Element::Entry(_, _) => false,
    }
}

/// How many bytes an array has, and the cursor at its first element, behind padding that these bytes leave out.
#[tactic(auto, unfolding(dbus_wire::specs::Arrays::head_at))]
pub fn head_at(
    endian: Endian,
    align: usize,
    from: Cursor<'_>,
) -> Result<(usize, Cursor<'_>), WireError>
    requires { 0 < align }
    ensures { Gives seen result (read_at (head_at endian align) from.entry) }
{
    let ((), start) = padding_at(4, from)?;
    let (count, first) = plain_u32_at(endian, start)?;
    let count = count as usize;
    if count > MAX_ARRAY {
        return Err(WireError::Bad(start.at));
    }
    let ((), first) = padding_at(align, first)?;
    Ok((count, first))
}

/// The end of a value that holds no others.
fn basic_end(
    alloc: Global,
    endian: Endian,
    basic: Basic,
    from: Cursor<'_>,
) -> Result<((), Cursor<'_>), WireError>
    ensures { Gives seen result (read_at (basic_end endian basic) from.entry) }
{
    match basic {
        Basic::Byte => byte_end(from),
        Basic::Bool => bool_end(endian, from),
        Basic::I16 | Basic::U16 => u16_end(from),
        Basic::I32 | Basic::U32 | Basic::Fd => u32_end(from),
        Basic::I64 | Basic::U64 | Basic::Double => u64_end(from),
        Basic::Str => string_end(endian, Holds::Text, from),
        Basic::Path => string_end(endian, Holds::Path, from),
        Basic::Sig => signature_end(alloc, from),
    }
}

/// The end of a value of a type, where so many containers may still be opened.
///
/// The place of Bad is the first byte of the first field that breaks its own rule or runs over its array or the bytes.
#[cycle(value)]
#[tactic(auto, using(crate::proofs::EndSteps::value_steps))]
pub fn value_end<'a>(
    context: Context,
    kind: &Kind,
    from: Cursor<'a>,
) -> Result<((), Cursor<'a>), WireError>
    requires { IsKind kind.now }
    ensures { Gives seen result (read_at (value_end context.endian context.room kind.now) from.entry) }
{
    if context.room == 0 {
        return closed_value_end(context, kind, from);
    }
    open_value_end(context.opened(), kind, from)
}

/// The end of a value where no container may be opened.
fn closed_value_end<'a>(
    context: Context,
    kind: &Kind,
    from: Cursor<'a>,
) -> Result<((), Cursor<'a>), WireError>
    ensures { Gives seen result (read_at (closed_value_end context.endian kind.now) from.entry) }
{
    match kind {
        Kind::Basic(basic) => basic_end(context.alloc, context.endian, *basic, from),
        _ => Err(WireError::Bad(from.at)),
    }
}

/// The end of a value where so many more containers may be opened in it.
#[cycle(value)]
fn open_value_end<'a>(
    context: Context,
    kind: &Kind,
    from: Cursor<'a>,
) -> Result<((), Cursor<'a>), WireError>
    requires { IsKind kind.now }
    ensures { Gives seen result (read_at (open_value_end context.endian context.room kind.now) from.entry) }
{
    match kind {
        Kind::Basic(basic) => basic_end(context.alloc, context.endian, *basic, from),
        Kind::Variant => variant_end(context, from),
        Kind::Array(inner) => array_end(context, Element::Whole(inner.get()), from),
        Kind::Dict(key, inner) => array_end(context, Element::Entry(*key, inner.get()), from),
        Kind::Struct(members) => struct_end(context, members.as_slice(), from),
    }
}

/// The end of a type's signature and of the value.
#[cycle(value)]
#[tactic(auto, unfolding(crate::specs::Ends::variant_end))]
fn variant_end(context: Context, from: Cursor<'_>) -> Result<((), Cursor<'_>), WireError>
    ensures { Gives seen result (read_at (variant_end (value_end context.endian context.room)) from.entry) }
{
    let (kind, start) = type_end(context.alloc, from)?;
    value_end(context, &kind, start)
}

/// The end of members that are aligned as a struct.
#[cycle(value)]
#[tactic(auto, unfolding(crate::specs::Ends::struct_end))]
fn struct_end<'a>(
    context: Context,
    kinds: &[Kind],
    from: Cursor<'a>,
) -> Result<((), Cursor<'a>), WireError>
    requires { All IsKind kinds.now }
    ensures { Gives seen result (read_at (struct_end (value_end context.endian context.room) kinds.now) from.entry) }
{
    let ((), start) = padding_at(8, from)?;
    members_end(context, kinds, start)
}

/// The end of values one after the other, each of its type.
#[cycle(value)]
pub fn members_end<'a>(
    context: Context,
    kinds: &[Kind],
    from: Cursor<'a>,
) -> Result<((), Cursor<'a>), WireError>
    requires { All IsKind kinds.now }
    ensures { Gives seen result (read_at (members_end (value_end context.endian context.room) kinds.now) from.entry) }
{
    let mut next = from;
    for kind in kinds {
        let ((), after) = value_end(context, kind, next)?;
        next = after;
    }
    Ok(((), next))
}

/// The end of an array: its length in bytes, the padding of the first item, and the items.
#[cycle(value)]
#[tactic(auto, unfolding(crate::specs::Ends::array_end))]
fn array_end<'a>(
    context: Context,
    element: Element<'_>,
    from: Cursor<'a>,
) -> Result<((), Cursor<'a>), WireError>
    requires { ElementIs element }
    ensures { Gives seen result (read_at (array_end context.endian (element_align element.entry) (element_end context.endian context.room element.entry)) from.entry) }
{
    let (count, first) = head_at(context.endian, element_align(element), from)?;
    contents_end(context, count, element, first)
}

/// The end of the items in so many bytes.
#[cycle(value)]
#[tactic(auto, unfolding(crate::specs::Ends::contents_end))]
fn contents_end<'a>(
    context: Context,
    count: usize,
    element: Element<'_>,
    from: Cursor<'a>,
) -> Result<((), Cursor<'a>), WireError>
    requires { ElementIs element }
    ensures { Gives seen result (read_at (contents_end (element_end context.endian context.room element.entry) count) from.entry) }
{
    let (front, rest) = front_of(from.rest, count);
    let contents = Cursor {
        at: from.at,
        rest: front,
    };
    let ((), _) = items_end(context, element, contents)?;
    let end = Cursor {
        at: from.at + front.len(),
        rest,
    };
    if from.rest.len() < count {
        return Err(WireError::Bad(end.at));
    }
    Ok(((), end))
}

/// The end of items in a row, up to the end of the bytes. Each takes a byte at least, so there are no more than bytes.
#[cycle(value)]
fn items_end<'a>(
    context: Context,
    element: Element<'_>,
    from: Cursor<'a>,
) -> Result<((), Cursor<'a>), WireError>
    requires { ElementIs element }
    ensures { Gives seen result (read_at (items_end (element_end context.endian context.room element.entry) (length from.entry.rest.now)) from.entry) }
{
    if are_bytes(element) {
        let end = Cursor {
            at: from.at + from.rest.len(),
            rest: &[],
        };
        return Ok(((), end));
    }
    let mut next = from;
    for _ in 0..from.rest.len() {
        if next.rest.is_empty() {
            break;
        }
        let ((), after) = element_end(context, element, next)?;
        next = after;
    }
    if !next.rest.is_empty() {
        return Err(WireError::Bad(next.at));
    }
    Ok(((), next))
}

/// The end of a value or an entry of an array.
#[cycle(value)]
fn element_end<'a>(
    context: Context,
    element: Element<'_>,
    from: Cursor<'a>,
) -> Result<((), Cursor<'a>), WireError>
    requires { ElementIs element }
    ensures { Gives seen result (read_at (element_end context.endian context.room element.entry) from.entry) }
{
    match element {
        Element::Whole(kind) => value_end(context, kind, from),
        Element::Entry(key, kind) => entry_end(context, key, kind, from),
    }
}

/// The end of an entry of a dict, which is a container too.
#[cycle(value)]
#[tactic(auto, using(crate::proofs::EndSteps::entry_opens))]
fn entry_end<'a>(
    context: Context,
    key: Basic,
    kind: &Kind,
    from: Cursor<'a>,
) -> Result<((), Cursor<'a>), WireError>
    requires { IsKind kind.now }
    ensures { Gives seen result (read_at (entry_end context.endian context.room key kind.now) from.entry) }
{
    if context.room == 0 {
        return Err(WireError::Bad(from.at));
    }
    pair_end(context.opened(), key, kind, from)
}

/// The end of a key and a value, aligned as a struct.
#[cycle(value)]
#[tactic(auto, unfolding(crate::specs::Ends::pair_end))]
fn pair_end<'a>(
    context: Context,
    key: Basic,
    kind: &Kind,
    from: Cursor<'a>,
) -> Result<((), Cursor<'a>), WireError>
    requires { IsKind kind.now }
    ensures { Gives seen result (read_at (pair_end context.endian key (value_end context.endian context.room kind.now)) from.entry) }
{
    let ((), start) = padding_at(8, from)?;
    let ((), middle) = basic_end(context.alloc, context.endian, key, start)?;
    value_end(context, kind, middle)
}
