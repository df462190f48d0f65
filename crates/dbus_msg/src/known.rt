//! The header fields of a message that are known.

ghost use Rattle.std.specs.Prelude.{◌≡◌, IfOk, MatchBool, None, Some};
ghost use Rattle.dbus_msg.specs.FieldReading.{IsSound, seen_inner};
ghost use Rattle.dbus_msg.specs.Known.{fill, has_required, is_name, name_in, no_fields, number_in, path_in, serial_in, signature_in, with_field};

use crate::field_reading::Inner;
use crate::message::Fields;
use crate::names::{is_bus_name, is_interface, is_member};
use dbus_wire::Signature;
use fw_base::{Memory, Text};
use std::alloc::Global;

/// The known fields, and the signature of the body.
#[derive(Drop)]
pub struct Known {
    pub fields: Fields,
    pub signature: Option<Signature>,
}

/// What a name is the name of.
#[derive(Clone, Copy)]
pub enum Name {
    Interface,
    Member,
    Bus,
}

/// Whether a text is such a name.
fn is_name(name: Name, text: &[u8]) -> bool
    ensures { result ≡ is_name name text.now }
{
    match name {
        Name::Interface => is_interface(text),
        Name::Member => is_member(text),
        Name::Bus => is_bus_name(text),
    }
}

/// Puts what was found into a field that is not there yet; false where there is nothing, or the field was there.
fn fill<T: Drop>(field: &mut Option<T>, found: Option<T>) -> bool
    ensures { MatchBool result (fill field.old found ≡ Some field.new) (fill field.old found ≡ None) }
{
    match field {
        None if found.is_some() => {
            *field = found;
            true
        }
        _ => false,
    }
}

/// The object path that a field holds.
fn path_in(alloc: Global, inner: &Inner<'_>) -> Result<Option<Text>, Memory>
    ensures { IfOk result (λ path. path ≡ path_in (seen_inner inner.now)) }
{
    match inner {
        Inner::Path(path) => Ok(Some(Text::of(alloc, path)?)),
        _ => Ok(None),
    }
}

/// The name that a field holds.
fn name_in(alloc: Global, name: Name, inner: &Inner<'_>) -> Result<Option<Text>, Memory>
    ensures { IfOk result (λ text. text ≡ name_in name (seen_inner inner.now)) }
{
    match inner {
        Inner::Text(text) if is_name(name, text.as_bytes()) => Ok(Some(Text::of(alloc, text)?)),
        _ => Ok(None),
    }
}

/// The signature that a field holds.
fn signature_in(alloc: Global, inner: &Inner<'_>) -> Result<Option<Signature>, Memory>
    requires { IsSound inner.now }
    ensures { IfOk result (λ signature. signature ≡ signature_in (seen_inner inner.now)) }
{
    match inner {
        Inner::Signature(codes) => Ok(Some(Signature::of_text(alloc, codes)?)),
        _ => Ok(None),
    }
}

/// The number that a field holds.
fn number_in(inner: &Inner<'_>) -> Option<u32>
    ensures { result ≡ number_in (seen_inner inner.now) }
{
    match inner {
        Inner::Number(number) => Some(*number),
        _ => None,
    }
}

/// The serial that a field holds, which is not 0.
fn serial_in(inner: &Inner<'_>) -> Option<u32>
    ensures { result ≡ serial_in (seen_inner inner.now) }
{
    match inner {
        Inner::Number(number) if *number != 0 => Some(*number),
        _ => None,
    }
}

impl Known {
    /// No field yet.
    pub fn none() -> Known
        ensures { result ≡ no_fields }
    {
        Known {
            fields: Fields {
                path: None,
                interface: None,
                member: None,
                error: None,
                reply_serial: None,
                destination: None,
                sender: None,
                fds: None,
            },
            signature: None,
        }
    }
}

/// Takes a header field in, by its code; false where it is at fault.
#[tactic(auto, unfolding(crate::specs::Known::with_field))]
pub fn put(alloc: Global, known: &mut Known, code: u8, inner: &Inner<'_>) -> Result<bool, Memory>
    requires { IsSound inner.now }
    ensures { IfOk result (λ fits. MatchBool fits (with_field code (seen_inner inner.now) known.old ≡ Some known.new) (with_field code (seen_inner inner.now) known.old ≡ None)) }
{
    match code {
        0 => Ok(false),
        1 => {
            let found = path_in(alloc, inner)?;
            Ok(fill(&mut known.fields.path, found))
        }
        2 => {
            let found = name_in(alloc, Name::Interface, inner)?;
            Ok(fill(&mut known.fields.interface, found))
        }
        3 => {
            let found = name_in(alloc, Name::Member, inner)?;
            Ok(fill(&mut known.fields.member, found))
        }
        4 => {
            let found = name_in(alloc, Name::Interface, inner)?;
            Ok(fill(&mut known.fields.error, found))
        }
        5 => Ok(fill(&mut known.fields.reply_serial, serial_in(inner))),
        6 => {
            let found = name_in(alloc, Name::Bus, inner)?;
            Ok(fill(&mut known.fields.destination, found))
        }
        7 => {
            let found = name_in(alloc, Name::Bus, inner)?;
            Ok(fill(&mut known.fields.sender, found))
        }
        8 => {
            let found = signature_in(alloc, inner)?;
            Ok(fill(&mut known.signature, found))
        }
        9 => Ok(fill(&mut known.fields.fds, number_in(inner))),
        _ => Ok(true),
    }
}

/// Whether the fields are there that a message of this kind has to have.
pub fn has_required(kind: u8, fields: &Fields) -> bool
    ensures { result ≡ has_required kind fields.now }
{
    match kind {
        1 => fields.path.is_some() && fields.member.is_some(),
        2 => fields.reply_serial.is_some(),
        3 => fields.error.is_some() && fields.reply_serial.is_some(),
        4 => fields.path.is_some() && fields.interface.is_some() && fields.member.is_some(),
        _ => true,
    }
}
