//! The buffer of a reader: the first LF of some bytes, room behind them, and a read into that room.
ghost use Rattle.std.specs.Prelude.{◌≡◌, ◌+◌, ◌-◌, ◌<◌, ◌≤◌, take, drop, slice_range, vec_len, max, OnErr, OnOk};
ghost use Rattle.std.specs.List.{position_or_len};
ghost use Rattle.fw_base.specs.Causes.{HasCause, Rose};
ghost use Rattle.fw_base.specs.Streams.{Reads};
ghost use Rattle.fw_input.specs.Lines.{is_lf};
ghost use Rattle.fw_input.specs.Refilling.{Fills};

use fw_base::{Failed, Memory, Source};
use memchr::memchr;

/// How many bytes the buffer gets more where it has no room.
const PIECE: usize = 65_536;

/// How many bytes stand before the first LF: all where there's none.
pub fn line_length(bytes: &[u8]) -> usize
    ensures { result ≡ position_or_len is_lf bytes.now }
{
    memchr(b'\n', bytes).unwrap_or(bytes.len())
}

/// Moves the bytes from `start` to `end` to the front of the buffer, and makes room behind them.
///
/// Where no memory is found for room they are moved nevertheless.
fn make_room(buffer: &mut Vec<u8>, start: usize, end: usize) -> Result<(), Memory>
    requires order { start ≤ end }
    requires inside { end ≤ vec_len buffer.old }
    ensures moved { take (end - start) buffer.new.items ≡ slice_range buffer.old.items start end }
    ensures holds { end - start ≤ vec_len buffer.new }
    ensures room { OnOk result (end - start < vec_len buffer.new) }
    ensures bounded { vec_len buffer.new ≤ max (vec_len buffer.old) (end - start + PIECE) }
{
    if start > 0 {
        buffer.copy_within(start..end, 0);
    }
    if end - start == buffer.len() {
        grow(buffer)?;
    }
    Ok(())
}

/// Makes the buffer one piece longer. For want of memory it is as before.
fn grow(buffer: &mut Vec<u8>) -> Result<(), Memory>
    ensures kept { take (vec_len buffer.old) buffer.new.items ≡ buffer.old.items }
    ensures longer { OnOk result (vec_len buffer.new ≡ vec_len buffer.old + PIECE) }
    ensures as_before { OnErr result (vec_len buffer.new ≡ vec_len buffer.old) }
{
    let length = buffer.len();
    let longer = length.checked_add(PIECE).ok_or(Memory)?;
    buffer.reserve_exact(PIECE)?;
    buffer.resize(longer, 0)?;
    Ok(())
}

/// What a refill came to.
pub enum Refill {
    /// Bytes came.
    Bytes,
    /// The source has none left.
    End,
    /// A read failed.
    Failed,
    /// No memory was found for room.
    Memory,
}

/// Moves the bytes from `start` to `end` to the front of the buffer and reads behind them, once.
///
/// Answers how many bytes came too.
pub fn fill<S: Source>(
    source: &mut S,
    buffer: &mut Vec<u8>,
    start: usize,
    end: usize,
) -> (Refill, usize)
    requires order { start ≤ end }
    requires inside { end ≤ vec_len buffer.old }
    ensures bounded { vec_len buffer.new ≤ max (vec_len buffer.old) (end - start + PIECE) }
    ensures fills { Fills result.0 result.1 (slice_range buffer.old.items start end) buffer.new.items (S.left source.old) (S.left source.new) }
    ensures counted { S.faults source.old ≤ S.faults source.new }
    ensures cause { result.0 ≡ Refill.Failed → Rose (S.faults source.old) (S.faults source.new) }
{
    if make_room(buffer, start, end).is_err() {
        return (Refill::Memory, 0);
    }
    match read_behind(source, buffer, end - start) {
        Ok(0) => (Refill::End, 0),
        Ok(count) => (Refill::Bytes, count),
        Err(Failed) => (Refill::Failed, 0),
    }
}

/// Reads into the buffer behind its first `end` bytes, which stay.
fn read_behind<S: Source>(source: &mut S, buffer: &mut Vec<u8>, end: usize) -> Result<usize, Failed>
    requires { end < vec_len buffer.old }
    ensures length { vec_len buffer.new ≡ vec_len buffer.old }
    ensures kept { take end buffer.new.items ≡ take end buffer.old.items }
    ensures reads { Reads (S.left source.old) (S.left source.new) result (drop end buffer.new.items) }
    ensures cause { HasCause (S.faults source.old) (S.faults source.new) result }
{
    source.read(&mut buffer[end..])
}
