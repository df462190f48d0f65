//! Messages of several kinds.

ghost use Rattle.std.specs.Prelude.{◌≡◌, ◌<◌, ◌∷◌, [], IfOk};
ghost use Rattle.dbus_msg.specs.Written.{IsMessage};
ghost use Rattle.dbus_wire.specs.declared.value.Value.TheVariants.{Bool as truth_of};
ghost use Rattle.dbus_samples.specs.Samples.{return_of};

use dbus_msg::{Body, Fields, Message};
use dbus_wire::Value;
use fw_base::Memory;
use sqlite_items::Items;
use std::alloc::Global;

/// A return with this body.
fn return_with(serial: u32, reply: u32, body: Items<Value>) -> Message
    ensures { result ≡ return_of serial reply body }
{
    Message {
        kind: 2,
        flags: 1,
        serial,
        fields: Fields {
            path: None,
            interface: None,
            member: None,
            error: None,
            reply_serial: Some(reply),
            destination: None,
            sender: None,
            fds: None,
        },
        body: Body::of(body),
    }
}

/// The return of a call of Ping.
pub fn pong(alloc: Global, serial: u32, reply: u32) -> Message
    requires serial { 0 < serial }
    requires reply { 0 < reply }
    ensures exact { result ≡ return_of serial reply [] }
    ensures writable { IsMessage result }
{
    return_with(serial, reply, Items::new(alloc))
}

/// The return of a call, with a boolean.
pub fn answer(alloc: Global, serial: u32, reply: u32, truth: bool) -> Result<Message, Memory>
    requires serial { 0 < serial }
    requires reply { 0 < reply }
    ensures exact { IfOk result (λ message. message ≡ return_of serial reply (truth_of truth ∷ [])) }
    ensures writable { IfOk result IsMessage }
{
    let mut body = Items::new(alloc);
    body.push(Value::Bool(truth))?;
    Ok(return_with(serial, reply, body))
}
