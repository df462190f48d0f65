//! Writes messages.

ghost use Rattle.std.specs.Prelude.{◌≡◌, ◌<◌, ◌≤◌, ◌-◌, ◌^◌, ◌++◌, ◌∷◌, [], drop, length, IfSome, OnOk, OnErr, Some};
ghost use Rattle.dbus_wire.specs.Appending.{Keeps};
ghost use Rattle.dbus_wire.specs.Spelling.{padding, spellings};
ghost use Rattle.dbus_wire.specs.TypeCodes.{types_codes};
ghost use Rattle.dbus_wire.specs.declared.value.Endian.TheVariants.{Little as little_endian};
ghost use Rattle.dbus_msg.specs.Messages.{message_of};
ghost use Rattle.dbus_msg.specs.Starts.{start};
ghost use Rattle.dbus_msg.specs.Written.{AreFields, header_fields, IsMessage, number_field, optional, path_field, signature_field, text_field, written};

use crate::body::Body;
use crate::message::{Fields, Message};
use dbus_wire::{Endian, push_padding, push_text, push_u32, set_u32};
use fw_base::{Memory, Text};

/// Appends the code of a header field and the one letter of its type.
#[tactic(auto, using(dbus_wire::proofs::KeepsLaws::keeping))]
fn push_code(out: &mut Vec<u8>, origin: usize, code: u8, letter: u8) -> Result<(), Memory>
    requires { origin ≤ length out.old.items }
    ensures ok { OnOk result (out.new.items ≡ out.old.items ++ (padding 8 (length out.old.items - origin) ++ (code ∷ 1 ∷ letter ∷ 0 ∷ []))) }
    ensures err { OnErr result (Keeps out.old.items out.new.items) }
{
    push_padding(out, origin, 8)?;
    out.extend_from_slice(&[code, 1, letter, 0])?;
    Ok(())
}

/// Appends the header field of an object path, where there is one.
#[tactic(auto, using(dbus_wire::proofs::KeepsLaws::keeping))]
fn push_path(out: &mut Vec<u8>, origin: usize, code: u8, path: &Option<Text>) -> Result<(), Memory>
    requires origin { origin ≤ length out.old.items }
    requires short { IfSome path.now (λ text. length text < 2 ^ 32) }
    ensures ok { OnOk result (out.new.items ≡ out.old.items ++ spellings little_endian (optional (path_field code) path.now) (length out.old.items - origin)) }
    ensures err { OnErr result (Keeps out.old.items out.new.items) }
{
    if let Some(path) = path {
        push_code(out, origin, code, b'o')?;
        push_text(out, origin, Endian::Little, path.as_str())?;
    }
    Ok(())
}

/// Appends the header field of a name, where there is one.
#[tactic(auto, using(dbus_wire::proofs::KeepsLaws::keeping))]
fn push_name(out: &mut Vec<u8>, origin: usize, code: u8, name: &Option<Text>) -> Result<(), Memory>
    requires origin { origin ≤ length out.old.items }
    requires short { IfSome name.now (λ text. length text < 2 ^ 32) }
    ensures ok { OnOk result (out.new.items ≡ out.old.items ++ spellings little_endian (optional (text_field code) name.now) (length out.old.items - origin)) }
    ensures err { OnErr result (Keeps out.old.items out.new.items) }
{
    if let Some(name) = name {
        push_code(out, origin, code, b's')?;
        push_text(out, origin, Endian::Little, name.as_str())?;
    }
    Ok(())
}

/// Appends the header field of a number, where there is one.
#[tactic(auto, using(dbus_wire::proofs::KeepsLaws::keeping))]
fn push_number(
    out: &mut Vec<u8>,
    origin: usize,
    code: u8,
    number: Option<u32>,
) -> Result<(), Memory>
    requires { origin ≤ length out.old.items }
    ensures ok { OnOk result (out.new.items ≡ out.old.items ++ spellings little_endian (optional (number_field code) number) (length out.old.items - origin)) }
    ensures err { OnErr result (Keeps out.old.items out.new.items) }
{
    if let Some(number) = number {
        push_code(out, origin, code, b'u')?;
        push_u32(out, origin, Endian::Little, number)?;
    }
    Ok(())
}

/// Appends the header field of a body's signature, unless the body is empty.
#[tactic(auto, using(dbus_wire::proofs::KeepsLaws::keeping))]
fn push_signature(out: &mut Vec<u8>, origin: usize, body: &Body) -> Result<(), Memory>
    requires origin { origin ≤ length out.old.items }
    requires short { length (types_codes body.now) ≤ 255 }
    ensures ok { OnOk result (out.new.items ≡ out.old.items ++ spellings little_endian (signature_field body.now) (length out.old.items - origin)) }
    ensures err { OnErr result (Keeps out.old.items out.new.items) }
{
    if body.is_empty() {
        return Ok(());
    }
    push_code(out, origin, 8, b'g')?;
    let place = out.as_slice().len();
    out.push(0)?;
    body.push_codes(out)?;
    let end = out.as_slice().len();
    out[place] = (end - place - 1) as u8;
    out.push(0)?;
    Ok(())
}

/// Appends the header fields of a message with this body, in the order of their codes.
#[tactic(auto, using(dbus_wire::proofs::KeepsLaws::keeping))]
fn push_fields(out: &mut Vec<u8>, origin: usize, fields: &Fields, body: &Body) -> Result<(), Memory>
    requires origin { origin ≤ length out.old.items }
    requires fields { AreFields fields.now }
    requires short { length (types_codes body.now) ≤ 255 }
    ensures ok { OnOk result (out.new.items ≡ out.old.items ++ spellings little_endian (header_fields fields.now body.now) (length out.old.items - origin)) }
    ensures err { OnErr result (Keeps out.old.items out.new.items) }
{
    push_path(out, origin, 1, &fields.path)?;
    push_name(out, origin, 2, &fields.interface)?;
    push_name(out, origin, 3, &fields.member)?;
    push_name(out, origin, 4, &fields.error)?;
    push_number(out, origin, 5, fields.reply_serial)?;
    push_name(out, origin, 6, &fields.destination)?;
    push_name(out, origin, 7, &fields.sender)?;
    push_signature(out, origin, body)?;
    push_number(out, origin, 9, fields.fds)?;
    Ok(())
}

/// Appends the fixed part of a message, with 0 in place of both lengths.
#[tactic(auto, using(dbus_wire::proofs::KeepsLaws::keeping))]
fn push_start(out: &mut Vec<u8>, kind: u8, flags: u8, serial: u32) -> Result<(), Memory>
    ensures ok { OnOk result (out.new.items ≡ out.old.items ++ start kind flags serial) }
    ensures err { OnErr result (Keeps out.old.items out.new.items) }
{
    let [a, b, c, d] = serial.to_le_bytes();
    out.extend_from_slice(&[b'l', kind, flags, 1, 0, 0, 0, 0, a, b, c, d, 0, 0, 0, 0])?;
    Ok(())
}

/// Appends a message, whose offsets count from its first byte.
#[tactic(auto, using(dbus_wire::proofs::KeepsLaws::keeping))]
fn push_message(message: &Message, out: &mut Vec<u8>) -> Result<(), Memory>
    requires { IsMessage message.now }
    ensures ok { OnOk result (out.new.items ≡ out.old.items ++ written message.now) }
    ensures err { OnErr result (Keeps out.old.items out.new.items) }
{
    let origin = out.as_slice().len();
    push_start(out, message.kind, message.flags, message.serial)?;
    push_fields(out, origin, &message.fields, &message.body)?;
    let fields_end = out.as_slice().len();
    push_padding(out, origin, 8)?;
    let body_start = out.as_slice().len();
    message.body.push(out, origin, Endian::Little)?;
    let end = out.as_slice().len();
    set_u32(out, origin + 4, Endian::Little, (end - body_start) as u32);
    set_u32(
        out,
        origin + 12,
        Endian::Little,
        (fields_end - origin - 16) as u32,
    );
    Ok(())
}

/// Appends a message in its written form, in one pass and in place; it may begin anywhere in the bytes.
///
/// Needs a message with the header fields that its kind requires, of valid names, and a body of which each value has a
/// spelling, within the limits of lengths. For want of memory the bytes are as before.
pub fn write_message(message: &Message, out: &mut Vec<u8>) -> Result<(), Memory>
    requires { IsMessage message.now }
    ensures ok { OnOk result (out.new.items ≡ out.old.items ++ written message.now) }
    // What was appended is read as this message.
    ensures read { OnOk result (message_of (drop (length out.old.items) out.new.items) ≡ Some message.now) }
    ensures err { OnErr result (out.new.items ≡ out.old.items) }
{
    let end = out.as_slice().len();
    let pushed = push_message(message, out);
    if pushed.is_err() {
        out.truncate(end);
    }
    pushed
}
