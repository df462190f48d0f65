//! Streams of messages, in pieces.
use crate::values::next_word;
use anyhow::Result;
use dbus_msg::{Decoder, FeedEnd};
use hex::decode;
use std::alloc::Global;

/// What came of a stream: how many messages, how its last piece left it, and whether nothing is held of a message that isn't whole.
type Came = (usize, FeedEnd, bool);

/// Feeds bytes in pieces of a size, up to a million of them.
fn fed(alloc: Global, bytes: &[u8], size: usize) -> Came {
    let mut decoder = Decoder::new(alloc);
    let mut count = 0usize;
    let mut end = FeedEnd::Open;
    let mut left = 1_000_000usize;
    for piece in bytes.chunks(size.max(1)) {
        if piece.len() <= left {
            let fed = decoder.feed(piece);
            count = count.saturating_add(fed.messages.len());
            end = fed.end;
            left -= piece.len();
        }
    }
    (count, end, decoder.is_between())
}

fn shown(alloc: Global, came: Came) -> Result<String> {
    let held = if came.2 {
        "nothing held"
    } else {
        "a front held"
    };
    Ok(format!(in alloc; "{} messages, {:?}, {held}", came.0, came.1)?)
}

/// `BYTES`: what comes of the stream in one piece, and whether the same does in pieces of 1 to 200 bytes.
pub fn pieces_told(alloc: Global, text: &str) -> Result<String> {
    let bytes = decode(alloc, text)?;
    let bytes = bytes.as_slice();
    let whole = fed(alloc, bytes, bytes.len());
    for size in 1..201usize {
        let came = fed(alloc, bytes, size);
        if came != whole {
            return Ok(format!(in alloc; "otherwise in pieces of {size}")?);
        }
    }
    shown(alloc, whole)
}

/// Whether a message comes as it is whole, wherever it is cut in two, and is held in between.
fn comes_once(alloc: Global, bytes: &[u8], place: usize) -> bool {
    let (first, second) = bytes.split_at(place.min(bytes.len()));
    if bytes.len() > 1_000_000 {
        return false;
    }
    let mut decoder = Decoder::new(alloc);
    let before = decoder.feed(first).messages.len();
    let between = decoder.is_between();
    let after = decoder.feed(second).messages.len();
    let (at_start, at_end) = (first.is_empty(), second.is_empty());
    let early: usize = if at_end { 1 } else { 0 };
    let late: usize = if at_end { 0 } else { 1 };
    before == early && after == late && between == (at_start || at_end) && decoder.is_between()
}

/// `BYTES`: at how many places the message may be cut and comes once.
pub fn cuts_told(alloc: Global, text: &str) -> Result<String> {
    let bytes = decode(alloc, text)?;
    let mut count = 0u64;
    for place in 0..=bytes.len() {
        if comes_once(alloc, bytes.as_slice(), place) {
            count = count.saturating_add(1);
        }
    }
    Ok(format!(in alloc; "comes once at {count} places")?)
}

/// `BODY FIELDS`: a stream whose first 16 bytes begin a return with these lengths of the body and of the header fields.
pub fn lengths_told(alloc: Global, words: &str) -> Result<String> {
    let (body, fields) = next_word(words)?;
    let [a, b, c, d] = body.parse::<u32>()?.to_le_bytes();
    let [e, f, g, h] = fields.parse::<u32>()?.to_le_bytes();
    let bytes = [b'l', 2, 1, 1, a, b, c, d, 1, 0, 0, 0, e, f, g, h];
    shown(alloc, fed(alloc, &bytes, 16))
}
