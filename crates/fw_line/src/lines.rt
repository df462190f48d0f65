//! Reading a line of a script.
ghost use Rattle.std.specs.Prelude.{◌≡◌, ◌<◌, if◌then◌else◌, None, Some, IfOk, MatchResult};
ghost use Rattle.std.specs.Option.{option_copied};
ghost use Rattle.std.specs.Str.{is_utf8};
ghost use Rattle.fw_words.specs.Keys.{texts};
ghost use Rattle.fw_words.specs.Reading.{Reads, Says};
ghost use Rattle.fw_line.specs.Asked.{IsAsked};
ghost use Rattle.fw_line.specs.Line.{call_line, client, end_line, is_skipped, line_of, line_of_words};

use super::Line;
use fw_call::{Request, read_call};
use fw_packet::read_packet;
use fw_text::read_number;
use fw_words::{LineError, Words, split_words};
use std::alloc::Global;

/// Reads a line, which comes without its LF.
///
/// BadLine is answered exactly for a line outside the grammar. A client's number is at most 9999. A packet is one that there
/// is, and came by an interface whose name has no `+`.
#[tactic(auto, unfolding(crate::specs::Line::line_of))]
pub fn read_line(alloc: Global, line: &[u8]) -> Result<Line, LineError>
    ensures says { Says result (line_of line.now) }
    ensures asked { IfOk result IsAsked }
{
    let Some(text) = text_of(line) else {
        return Err(LineError::BadLine);
    };
    if is_skipped(line) {
        return Ok(Line::Skip);
    }
    let words = split_words(alloc, text)?;
    read_words(alloc, words.as_slice())
}

/// Bytes as text, where they are UTF-8.
fn text_of(bytes: &[u8]) -> Option<&str>
    ensures { option_copied result ≡ (if is_utf8 bytes.now then Some bytes.now else None) }
{
    match std::str::from_utf8(bytes) {
        Ok(text) => Some(text),
        Err(_) => None,
    }
}

/// Whether a line is empty or a comment.
fn is_skipped(line: &[u8]) -> bool
    ensures { result ≡ is_skipped line.now }
{
    match line {
        [] => true,
        [first, ..] => *first == b'#',
    }
}

/// What a line says, by its words.
#[tactic(auto, unfolding(crate::specs::Line::line_of_words))]
fn read_words(alloc: Global, words: &[&str]) -> Result<Line, LineError>
    ensures says { Says result (line_of_words (texts words.now)) }
    ensures asked { IfOk result IsAsked }
{
    let [kind, rest @ ..] = words else {
        return Err(LineError::BadLine);
    };
    match *kind {
        "call" => read_call_line(alloc, &mut Words::of(rest)),
        "end" => read_end_line(&mut Words::of(rest)),
        "packet" => Ok(Line::Packet(read_packet(alloc, rest)?)),
        _ => Err(LineError::BadLine),
    }
}

#[tactic(auto, unfolding(crate::specs::Line::call_line))]
fn read_call_line(alloc: Global, words: &mut Words) -> Result<Line, LineError>
    ensures says { Says result (call_line words.old) }
    ensures asked { IfOk result IsAsked }
{
    let client = read_client(words)?;
    match read_call(alloc, words)? {
        Request::Call(call) => Ok(Line::Call { client, call }),
        Request::Unfit { signature } => Ok(Line::Unfit { client, signature }),
    }
}

#[tactic(auto, unfolding(crate::specs::Line::end_line))]
fn read_end_line(words: &mut Words) -> Result<Line, LineError>
    ensures says { Says result (end_line words.old) }
    ensures asked { IfOk result IsAsked }
{
    let client = read_client(words)?;
    words.end()?;
    Ok(Line::End { client })
}

/// Takes the number of a client.
fn read_client(words: &mut Words) -> Result<u16, LineError>
    ensures read { Reads result words.new (client words.old) }
    ensures bounded { IfOk result (λ client. client < 10000) }
{
    let word = words.next()?;
    match read_number(word.as_bytes(), 9_999) {
        Some(number) => Ok(number as u16),
        None => Err(LineError::BadLine),
    }
}
