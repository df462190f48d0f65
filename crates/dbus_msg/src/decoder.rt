//! Messages out of a stream that comes in pieces.

ghost use Rattle.std.specs.Prelude.{◌≡◌, ◌≢◌, ℕ, ◌+◌, ◌^◌, ◌<◌, ◌≤◌, ◌++◌, ◌↔◌, [], IsTrue, drop, length};
ghost use Rattle.dbus_msg.specs.Streams.{BadAt, Split};

use crate::cutting::{Cut, CutEnd, cut_off};
use crate::message::Message;
use sqlite_items::Items;
use std::alloc::Global;
use std::marker::Model;

/// How a piece leaves the stream.
#[derive(Clone, Copy, Debug, PartialEq, Eq)]
pub enum FeedEnd {
    /// More may come.
    Open,
    /// The message that begins at this byte of the stream is refused.
    Bad(u64),
    /// No memory was found.
    Memory,
}

/// What came of a piece.
#[derive(Drop)]
pub struct Fed {
    /// The messages that became whole, in order. After want of memory some may be missing.
    pub messages: Items<Message>,
    pub end: FeedEnd,
}

/// Reads messages out of a stream that comes in pieces. Contracts see the bytes kept, which are no whole message yet,
/// the place of the first of them in the stream, and how the last piece left it.
#[derive(Drop)]
pub struct Decoder {
    alloc: Global,
    kept: Vec<u8>,
    place: u64,
    end: FeedEnd,
}

impl Model for Decoder {
    ghost use Rattle.dbus_msg.specs.Kept.{Kept};

    ghost Value = { Kept };

    ghost view = { λ decoder. record { bytes = decoder.kept.items; place = decoder.place; end = decoder.end } };
}

/// Takes so many bytes off the front. Where it takes none, none is moved.
fn drop_front(bytes: &mut Vec<u8>, count: usize)
    requires { count ≤ length bytes.old.items }
    ensures { bytes.new.items ≡ drop count bytes.old.items }
{
    if count == 0 {
        return;
    }
    let len = bytes.as_slice().len();
    bytes.copy_within(count..len, 0);
    bytes.truncate(len - count);
}

/// Puts a piece behind the bytes kept, and cuts the whole messages off their front.
fn take_in(alloc: Global, kept: &mut Vec<u8>, piece: &[u8]) -> Cut
    ensures bound { length kept.new.items + result.at ≤ length kept.old.items + length piece.now }
    ensures open { result.end ≡ CutEnd.Open → Split (kept.old.items ++ piece.now) result.messages kept.new.items }
    ensures rest { result.end ≡ CutEnd.Open → length kept.new.items + result.at ≡ length kept.old.items + length piece.now }
    ensures bad { result.end ≡ CutEnd.Bad → BadAt (kept.old.items ++ piece.now) result.messages result.at }
{
    if kept.extend_from_slice(piece).is_err() {
        return Cut {
            messages: Items::new(alloc),
            at: 0,
            end: CutEnd::Memory,
        };
    }
    let cut = cut_off(alloc, kept.as_slice());
    drop_front(kept, cut.at);
    cut
}

impl Decoder {
    /// A decoder at the beginning of a stream.
    pub fn new(alloc: Global) -> Decoder
        ensures bytes { result.bytes ≡ [] }
        ensures place { result.place ≡ 0 }
        ensures end { result.end ≡ FeedEnd.Open }
    {
        Decoder {
            alloc,
            kept: Vec::new(alloc),
            place: 0,
            end: FeedEnd::Open,
        }
    }

    /// Takes the next piece of the stream, and gives the messages that became whole.
    ///
    /// Needs a stream of less than 2^64 bytes. After Bad and after Memory each piece gets no message and the same end.
    pub fn feed(&mut self, piece: &[u8]) -> Fed
        requires { self.old.place + (length self.old.bytes + length piece.now) < 2 ^ 64 }
        ensures end { self.new.end ≡ result.end }
        ensures bound { self.new.place + length self.new.bytes ≤ self.old.place + (length self.old.bytes + length piece.now) }
        // An end stays.
        ensures ended { self.old.end ≢ FeedEnd.Open → (result.messages ≡ []) × (self.new ≡ self.old) }
        // The messages are the whole ones of the bytes kept and the piece, and the rest is kept.
        ensures open { self.old.end ≡ FeedEnd.Open → result.end ≡ FeedEnd.Open → Split (self.old.bytes ++ piece.now) result.messages self.new.bytes }
        ensures place { self.old.end ≡ FeedEnd.Open → result.end ≡ FeedEnd.Open → self.new.place + length self.new.bytes ≡ self.old.place + (length self.old.bytes + length piece.now) }
        // The place of Bad counts from the beginning of the stream.
        ensures bad { (place : ℕ) → self.old.end ≡ FeedEnd.Open → result.end ≡ FeedEnd.Bad place → (at : ℕ) × (place ≡ self.old.place + at) × BadAt (self.old.bytes ++ piece.now) result.messages at }
    {
        if self.end != FeedEnd::Open {
            return Fed {
                messages: Items::new(self.alloc),
                end: self.end,
            };
        }
        let Cut { messages, at, end } = take_in(self.alloc, &mut self.kept, piece);
        let behind = self.place + at as u64;
        let end = match end {
            CutEnd::Open => FeedEnd::Open,
            CutEnd::Bad => FeedEnd::Bad(behind),
            CutEnd::Memory => FeedEnd::Memory,
        };
        self.place = behind;
        self.end = end;
        Fed { messages, end }
    }

    /// Whether no part of a message is held.
    pub fn is_between(&self) -> bool
        ensures { IsTrue result ↔ (self.now.bytes ≡ []) }
    {
        self.kept.as_slice().is_empty()
    }
}
