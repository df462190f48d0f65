//! Reads values by their type.

ghost use Rattle.std.specs.Prelude.{◌≡◌, ◌<◌, ◌-◌, ◌≤◌, length, All, IfOk};
ghost use Rattle.dbus_signature.specs.Cursors.{read_at, seen};
ghost use Rattle.dbus_signature.specs.Reading.{Gives};
ghost use Rattle.dbus_signature.specs.Signatures.{IsKind};
ghost use Rattle.dbus_signature.specs.Types.{codes};
ghost use Rattle.dbus_wire.specs.Elements.{element_at, element_align, ElementIs};
ghost use Rattle.dbus_wire.specs.Values.{array_at, as_value, closed_value_at, contents_at, entry_at, items_at, members_at, open_value_at, pair_at, struct_at, value_at, variant_at};
ghost use Rattle.dbus_wire.specs.declared.value.Value.TheVariants.{Array as array_value};

use crate::alignment::alignment;
use crate::arrays::head_at;
use crate::basics::basic_value_at;
use crate::fields::padding_at;
use crate::packed::{fixed_of, packed_at};
use crate::strings::{front_of, type_at};
use crate::value::{Endian, Value};
use dbus_signature::{Basic, Cursor, Kind, Signature, WireError};
use sqlite_items::{Boxed, Items};
use std::alloc::Global;

/// How values are read: with which order of bytes, and how many containers may still be opened in one another.
#[derive(Clone, Copy)]
pub struct Context {
    pub alloc: Global,
    pub endian: Endian,
    pub room: u8,
}

impl Context {
    /// Within a container that is opened.
    fn opened(self) -> Context
        requires { 0 < self.room }
        ensures endian { result.endian ≡ self.endian }
        ensures room { result.room ≡ self.room - 1 }
    {
        Context {
            alloc: self.alloc,
            endian: self.endian,
            room: self.room - 1,
        }
    }
}

/// What an array holds: values of a type, or entries of a key and a value.
#[derive(Clone, Copy)]
pub enum Element<'a> {
    Whole(&'a Kind),
    Entry(Basic, &'a Kind),
}

/// What elements begin at a multiple of.
fn element_align(element: Element<'_>) -> usize
    ensures exact { result ≡ element_align element.entry }
    ensures some { 0 < result }
{
    match element {
        Element::Whole(kind) => alignment(kind),
        Element::Entry(_, _) => 8,
    }
}

/// A value of a type, where so many containers may still be opened.
///
/// The place of Bad is the first byte of the first field that breaks its own rule or runs over its array or the bytes.
#[cycle(value)]
#[tactic(auto, using(crate::proofs::ValueLaws::value_steps))]
pub fn value_at<'a>(
    context: Context,
    kind: &Kind,
    from: Cursor<'a>,
) -> Result<(Value, Cursor<'a>), WireError>
    requires { IsKind kind.now }
    ensures { Gives seen result (read_at (value_at context.endian context.room kind.now) from.entry) }
{
    if context.room == 0 {
        return closed_value_at(context, kind, from);
    }
    open_value_at(context.opened(), kind, from)
}

/// A value where no container may be opened.
fn closed_value_at<'a>(
    context: Context,
    kind: &Kind,
    from: Cursor<'a>,
) -> Result<(Value, Cursor<'a>), WireError>
    ensures { Gives seen result (read_at (closed_value_at context.endian kind.now) from.entry) }
{
    match kind {
        Kind::Basic(basic) => basic_value_at(context.alloc, context.endian, *basic, from),
        _ => Err(WireError::Bad(from.at)),
    }
}

/// A value where so many more containers may be opened in it.
#[cycle(value)]
fn open_value_at<'a>(
    context: Context,
    kind: &Kind,
    from: Cursor<'a>,
) -> Result<(Value, Cursor<'a>), WireError>
    requires { IsKind kind.now }
    ensures { Gives seen result (read_at (open_value_at context.endian context.room kind.now) from.entry) }
{
    match kind {
        Kind::Basic(basic) => basic_value_at(context.alloc, context.endian, *basic, from),
        Kind::Variant => variant_at(context, from),
        Kind::Array(inner) => match fixed_of(inner.get()) {
            Some(basic) => packed_at(context.alloc, context.endian, basic, from),
            None => array_value_at(context, kind, Element::Whole(inner.get()), from),
        },
        Kind::Dict(key, inner) => {
            array_value_at(context, kind, Element::Entry(*key, inner.get()), from)
        }
        Kind::Struct(members) => struct_at(context, members.as_slice(), from),
    }
}

/// The type's signature, and the value.
#[cycle(value)]
#[tactic(auto, unfolding(crate::specs::Values::variant_at))]
fn variant_at(context: Context, from: Cursor<'_>) -> Result<(Value, Cursor<'_>), WireError>
    ensures { Gives seen result (read_at (variant_at (value_at context.endian context.room)) from.entry) }
{
    let (kind, signature, start) = type_at(context.alloc, from)?;
    let (inner, after) = value_at(context, &kind, start)?;
    let inner = Boxed::new(context.alloc, inner)?;
    Ok((Value::Variant(signature, inner), after))
}

/// Members one after the other, aligned as a struct.
#[cycle(value)]
#[tactic(auto, unfolding(crate::specs::Values::struct_at))]
fn struct_at<'a>(
    context: Context,
    kinds: &[Kind],
    from: Cursor<'a>,
) -> Result<(Value, Cursor<'a>), WireError>
    requires { All IsKind kinds.now }
    ensures { Gives seen result (read_at (struct_at (value_at context.endian context.room) kinds.now) from.entry) }
{
    let ((), start) = padding_at(8, from)?;
    let (members, after) = members_at(context, kinds, start)?;
    Ok((Value::Struct(members), after))
}

/// Values one after the other, each of its type.
#[cycle(value)]
pub fn members_at<'a>(
    context: Context,
    kinds: &[Kind],
    from: Cursor<'a>,
) -> Result<(Items<Value>, Cursor<'a>), WireError>
    requires { All IsKind kinds.now }
    ensures { Gives seen result (read_at (members_at (value_at context.endian context.room) kinds.now) from.entry) }
{
    let mut members = Items::new(context.alloc);
    let mut next = from;
    for kind in kinds {
        let (member, after) = value_at(context, kind, next)?;
        members.push(member)?;
        next = after;
    }
    Ok((members, next))
}

/// An array of a type, as a value.
#[cycle(value)]
fn array_value_at<'a>(
    context: Context,
    kind: &Kind,
    element: Element<'_>,
    from: Cursor<'a>,
) -> Result<(Value, Cursor<'a>), WireError>
    requires kind { IsKind kind.now }
    requires element { ElementIs element }
    ensures { Gives seen result (as_value (array_value (codes kind.now)) (read_at (array_at context.endian (element_align element.entry) (element_at context.endian context.room element.entry)) from.entry)) }
{
    let (items, after) = array_at(context, element, from)?;
    let signature = Signature::of_kind(context.alloc, kind)?;
    Ok((Value::Array(signature, items), after))
}

/// The length in bytes, the padding of the first item, and the items.
#[cycle(value)]
#[tactic(auto, using(crate::proofs::ArrayLaws::array_opens))]
fn array_at<'a>(
    context: Context,
    element: Element<'_>,
    from: Cursor<'a>,
) -> Result<(Items<Value>, Cursor<'a>), WireError>
    requires { ElementIs element }
    ensures { Gives seen result (read_at (array_at context.endian (element_align element.entry) (element_at context.endian context.room element.entry)) from.entry) }
{
    let (count, first) = head_at(context.endian, element_align(element), from)?;
    contents_at(context, count, element, first)
}

/// The items in so many bytes.
#[cycle(value)]
#[tactic(auto, unfolding(crate::specs::Values::contents_at))]
fn contents_at<'a>(
    context: Context,
    count: usize,
    element: Element<'_>,
    from: Cursor<'a>,
) -> Result<(Items<Value>, Cursor<'a>), WireError>
    requires { ElementIs element }
    ensures { Gives seen result (read_at (contents_at (element_at context.endian context.room element.entry) count) from.entry) }
{
    let (front, rest) = front_of(from.rest, count);
    let contents = Cursor {
        at: from.at,
        rest: front,
    };
    let (items, _) = items_at(context, element, contents)?;
    let end = Cursor {
        at: from.at + front.len(),
        rest,
    };
    if from.rest.len() < count {
        return Err(WireError::Bad(end.at));
    }
    Ok((items, end))
}

/// Items in a row, up to the end of the bytes. Each takes a byte at least, so there are no more than bytes.
#[cycle(value)]
fn items_at<'a>(
    context: Context,
    element: Element<'_>,
    from: Cursor<'a>,
) -> Result<(Items<Value>, Cursor<'a>), WireError>
    requires { ElementIs element }
    ensures { Gives seen result (read_at (items_at (element_at context.endian context.room element.entry) (length from.entry.rest.now)) from.entry) }
{
    let mut items = Items::new(context.alloc);
    let mut next = from;
    for _ in 0..from.rest.len() {
        if next.rest.is_empty() {
            break;
        }
        let (item, after) = element_at(context, element, next)?;
        items.push(item)?;
        next = after;
    }
    if !next.rest.is_empty() {
        return Err(WireError::Bad(next.at));
    }
    Ok((items, next))
}

/// A value or an entry of an array.
#[cycle(value)]
fn element_at<'a>(
    context: Context,
    element: Element<'_>,
    from: Cursor<'a>,
) -> Result<(Value, Cursor<'a>), WireError>
    requires { ElementIs element }
    ensures { Gives seen result (read_at (element_at context.endian context.room element.entry) from.entry) }
{
    match element {
        Element::Whole(kind) => value_at(context, kind, from),
        Element::Entry(key, kind) => entry_at(context, key, kind, from),
    }
}

/// An entry of a dict, which is a container too.
#[cycle(value)]
#[tactic(auto, using(crate::proofs::ValueLaws::entry_opens))]
fn entry_at<'a>(
    context: Context,
    key: Basic,
    kind: &Kind,
    from: Cursor<'a>,
) -> Result<(Value, Cursor<'a>), WireError>
    requires { IsKind kind.now }
    ensures { Gives seen result (read_at (entry_at context.endian context.room key kind.now) from.entry) }
{
    if context.room == 0 {
        return Err(WireError::Bad(from.at));
    }
    pair_at(context.opened(), key, kind, from)
}

/// A key and a value, aligned as a struct.
#[cycle(value)]
#[tactic(auto, unfolding(crate::specs::Values::pair_at))]
fn pair_at<'a>(
    context: Context,
    key: Basic,
    kind: &Kind,
    from: Cursor<'a>,
) -> Result<(Value, Cursor<'a>), WireError>
    requires { IsKind kind.now }
    ensures { Gives seen result (read_at (pair_at context.endian key (value_at context.endian context.room kind.now)) from.entry) }
{
    let ((), start) = padding_at(8, from)?;
    let (first, middle) = basic_value_at(context.alloc, context.endian, key, start)?;
    let (second, after) = value_at(context, kind, middle)?;
    let first = Boxed::new(context.alloc, first)?;
    let second = Boxed::new(context.alloc, second)?;
    Ok((Value::Pair(first, second), after))
}
