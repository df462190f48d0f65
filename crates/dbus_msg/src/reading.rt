//! Reads a whole message out of its bytes.

ghost use Rattle.std.specs.Prelude.{◌≡◌, ◌≤◌, length, IfOk};
ghost use Rattle.dbus_msg.specs.Headers.{body_start};
ghost use Rattle.dbus_msg.specs.Messages.{are_zeros, body_in, fields_in, gap_is_zero, message_of, with_fields, with_header};

use crate::body::Body;
use crate::field_reading::fields_one_by_one;
use crate::header::{Header, read_header};
use crate::known::{Known, has_required};
use crate::message::Message;
use dbus_held::read_held;
use dbus_signature::Signature;
use dbus_wire::{Endian, WireError};
use fw_base::Memory;
use sqlite_items::Items;
use std::alloc::Global;

/// Where the header fields begin, with their length.
const FIELDS_START: usize = 12;

/// The known header fields of a message; None where they are at fault.
fn fields_in(alloc: Global, endian: Endian, bytes: &[u8]) -> Result<Option<Known>, Memory>
    requires { 16 ≤ length bytes.now }
    ensures { IfOk result (λ known. known ≡ fields_in endian bytes.now) }
{
    fields_one_by_one(alloc, endian, FIELDS_START, bytes)
}

fn are_zeros(bytes: &[u8]) -> bool
    ensures { result ≡ are_zeros bytes.now }
{
    bytes.iter().all(|b| *b == 0)
}

/// The values of a signature from an offset to the end of the bytes; None where others stand there.
#[tactic(auto, unfolding(crate::specs::Messages::body_in))]
fn body_in(
    alloc: Global,
    endian: Endian,
    signature: &Option<Signature>,
    start: usize,
    bytes: &[u8],
) -> Result<Option<Body>, Memory>
    requires { start ≤ length bytes.now }
    ensures { IfOk result (λ body. body ≡ body_in endian signature.now start bytes.now) }
{
    let Some(signature) = signature else {
        return Ok((start == bytes.len()).then_some(Body::of(Items::new(alloc))));
    };
    // A signature has types.
    let _ = signature.as_bytes();
    match read_held(alloc, signature, bytes, start, endian) {
        Ok((held, end)) if end == bytes.len() => Ok(Some(Body::held(held))),
        Ok(_) => Ok(None),
        Err(WireError::Bad(_)) => Ok(None),
        Err(WireError::Memory) => Err(Memory),
    }
}

/// Whether the bytes between the header fields and the body are zeros.
fn gap_is_zero(header: Header, bytes: &[u8]) -> bool
    requires { body_start header ≤ length bytes.now }
    ensures { result ≡ gap_is_zero header bytes.now }
{
    let (_, rest) = bytes.split_at(header.fields_end() as usize);
    let (gap, _) = rest.split_at((header.body_start() - header.fields_end()) as usize);
    are_zeros(gap)
}

/// A message of its header and its known fields.
fn with_fields(
    alloc: Global,
    header: Header,
    bytes: &[u8],
    known: Known,
) -> Result<Option<Message>, Memory>
    requires { body_start header ≤ length bytes.now }
    ensures { IfOk result (λ message. message ≡ with_fields header bytes.now known) }
{
    if !gap_is_zero(header, bytes) {
        return Ok(None);
    }
    let start = header.body_start() as usize;
    let Some(body) = body_in(alloc, header.endian, &known.signature, start, bytes)? else {
        return Ok(None);
    };
    if !has_required(header.kind, &known.fields) {
        return Ok(None);
    }
    Ok(Some(Message {
        kind: header.kind,
        flags: header.flags,
        serial: header.serial,
        fields: known.fields,
        body,
    }))
}

/// A message of its header.
fn with_header(alloc: Global, header: Header, bytes: &[u8]) -> Result<Option<Message>, Memory>
    requires { 16 ≤ length bytes.now }
    ensures { IfOk result (λ message. message ≡ with_header bytes.now header) }
{
    if header.whole_len() != bytes.len() as u64 {
        return Ok(None);
    }
    let Some(known) = fields_in(alloc, header.endian, bytes)? else {
        return Ok(None);
    };
    with_fields(alloc, header, bytes, known)
}

/// The message that bytes are as a whole; None where they are none.
#[tactic(auto, unfolding(crate::specs::Messages::message_of))]
pub fn read_message(alloc: Global, bytes: &[u8]) -> Result<Option<Message>, Memory>
    requires { 16 ≤ length bytes.now }
    ensures { IfOk result (λ message. message ≡ message_of bytes.now) }
{
    let Some(header) = read_header(bytes) else {
        return Ok(None);
    };
    with_header(alloc, header, bytes)
}
