//! Cuts bytes into whole messages.

ghost use Rattle.std.specs.Prelude.{◌≡◌, ◌≤◌, drop, length, IfOk};
ghost use Rattle.dbus_msg.specs.Cuts.{IsWithin, seen_next};
ghost use Rattle.dbus_msg.specs.Streams.{BadAt, next, Split};

use crate::header::read_header;
use crate::message::Message;
use crate::reading::read_message;
use fw_base::Memory;
use sqlite_items::Items;
use std::alloc::Global;

/// What comes next in bytes.
#[derive(Drop)]
pub enum Coming {
    /// No whole message is there yet.
    Part,
    /// What begins here is refused.
    Refused,
    /// A message, and how many bytes it has.
    Whole(Message, usize),
}

/// What comes next in bytes: a message as soon as it is whole, a refusal as soon as the first 16 bytes tell it.
#[tactic(auto, unfolding(crate::specs::Streams::next))]
fn next_of(alloc: Global, bytes: &[u8]) -> Result<Coming, Memory>
    ensures exact { IfOk result (λ coming. seen_next bytes.now coming ≡ next bytes.now) }
    ensures within { IfOk result (IsWithin bytes.now) }
{
    if bytes.len() < 16 {
        return Ok(Coming::Part);
    }
    let Some(header) = read_header(bytes) else {
        return Ok(Coming::Refused);
    };
    let len = header.whole_len() as usize;
    if bytes.len() < len {
        return Ok(Coming::Part);
    }
    let (front, _) = bytes.split_at(len);
    match read_message(alloc, front)? {
        Some(message) => Ok(Coming::Whole(message, len)),
        None => Ok(Coming::Refused),
    }
}

/// Why no more messages come out of bytes.
#[derive(Clone, Copy, Debug, PartialEq, Eq)]
pub enum CutEnd {
    /// The rest is no whole message yet.
    Open,
    /// What begins behind the last message is refused.
    Bad,
    Memory,
}

/// The whole messages of bytes, and where the rest begins.
#[derive(Drop)]
pub struct Cut {
    pub messages: Items<Message>,
    pub at: usize,
    pub end: CutEnd,
}

/// Cuts whole messages off the front of bytes.
pub fn cut_off(alloc: Global, bytes: &[u8]) -> Cut
    ensures within { result.at ≤ length bytes.now }
    ensures open { result.end ≡ CutEnd.Open → Split bytes.now result.messages (drop result.at bytes.now) }
    ensures bad { result.end ≡ CutEnd.Bad → BadAt bytes.now result.messages result.at }
{
    let mut messages = Items::new(alloc);
    let mut rest = bytes;
    loop {
        let end = match next_of(alloc, rest) {
            Ok(Coming::Whole(message, len)) => {
                if messages.push(message).is_ok() {
                    let (_, behind) = rest.split_at(len);
                    rest = behind;
                    continue;
                }
                CutEnd::Memory
            }
            Ok(Coming::Part) => CutEnd::Open,
            Ok(Coming::Refused) => CutEnd::Bad,
            Err(Memory) => CutEnd::Memory,
        };
        let at = bytes.len() - rest.len();
        return Cut { messages, at, end };
    }
}
