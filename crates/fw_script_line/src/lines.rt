//! Reading a line of a script.
ghost use Rattle.std.specs.Prelude.{◌≡◌, ◌<◌, IfOk};
ghost use Rattle.fw_event_line.specs.Bounds.{IsBounded};
ghost use Rattle.fw_words.specs.Keys.{texts};
ghost use Rattle.fw_words.specs.Reading.{Reads, Says};
ghost use Rattle.fw_script_line.specs.Asked.{IsAsked};
ghost use Rattle.fw_script_line.specs.Line.{asked_line, connection, dbus_line, event_line_of, hang_line, line_of, line_of_words, rules_line, told_line};

use super::Line;
use super::bytes::read_bytes;
use super::text::{is_skipped, text_of};
use fw_base::{Memory, Text};
use fw_event_line::{Asked, EventLine, read_event};
use fw_packet::read_packet;
use fw_text::read_number;
use fw_words::{LineError, Words, split_words};
use std::alloc::Global;

/// Reads a line, which comes without its LF.
///
/// BadLine is answered exactly for a line outside the grammar. A client's or connection's number is at most 9999, a time at most 2^62. A
/// packet is one that there is, and came by an interface whose name has no `+`.
#[tactic(auto, unfolding(crate::specs::Line::line_of))]
pub fn read_line(alloc: Global, line: &[u8]) -> Result<Line, LineError>
    ensures says { Says result (line_of line.now) }
    ensures asked { IfOk result IsAsked }
{
    let Some(text) = text_of(line) else {
        return Err(LineError::BadLine);
    };
    if is_skipped(line) {
        return Ok(Line::Skip);
    }
    let words = split_words(alloc, text)?;
    read_words(alloc, words.as_slice())
}

/// What a line says, by its words.
#[tactic(auto, unfolding(crate::specs::Line::line_of_words))]
fn read_words(alloc: Global, words: &[&str]) -> Result<Line, LineError>
    ensures says { Says result (line_of_words (texts words.now)) }
    ensures asked { IfOk result IsAsked }
{
    let [kind, rest @ ..] = words else {
        return Err(LineError::BadLine);
    };
    match *kind {
        "packet" => Ok(Line::Packet(read_packet(alloc, rest)?)),
        "rules" => read_rules_line(&Words::of(rest)),
        "dbus" => read_dbus_line(alloc, &mut Words::of(rest)),
        "hang" => read_hang_line(&mut Words::of(rest)),
        _ => read_event_line(alloc, words),
    }
}

/// What a line says that tells an event: a call, the end of a session, the time or a link.
#[tactic(auto, unfolding(crate::specs::Line::event_line_of))]
fn read_event_line(alloc: Global, words: &[&str]) -> Result<Line, LineError>
    ensures says { Says result (event_line_of (texts words.now)) }
    ensures asked { IfOk result IsAsked }
{
    let event = read_event(alloc, words)?;
    Ok(told_line(alloc, event)?)
}

fn told_line(alloc: Global, event: EventLine) -> Result<Line, Memory>
    requires { IsBounded event }
    ensures told { IfOk result (λ line. line ≡ told_line event) }
    ensures asked { IfOk result IsAsked }
{
    match event {
        EventLine::Call { client, asked } => asked_line(alloc, client, asked),
        EventLine::End { client } => Ok(Line::End { client }),
        EventLine::Tick { now } => Ok(Line::Tick { now }),
        EventLine::Link { up, name } => Ok(Line::Link { up, name }),
    }
}

fn asked_line(alloc: Global, client: u16, asked: Asked) -> Result<Line, Memory>
    requires { client < 10000 }
    ensures told { IfOk result (λ line. line ≡ asked_line client asked) }
    ensures asked { IfOk result IsAsked }
{
    match asked {
        Asked::Call(call) => Ok(Line::Call { client, call }),
        Asked::Unfit(letters) => {
            let signature = Text::of(alloc, letters.as_str())?;
            Ok(Line::Unfit { client, signature })
        }
    }
}

fn read_rules_line(words: &Words) -> Result<Line, LineError>
    ensures says { Says result (rules_line words.now) }
    ensures asked { IfOk result IsAsked }
{
    words.end()?;
    Ok(Line::Rules)
}

#[tactic(auto, unfolding(crate::specs::Line::dbus_line))]
fn read_dbus_line(alloc: Global, words: &mut Words) -> Result<Line, LineError>
    ensures says { Says result (dbus_line words.old) }
    ensures asked { IfOk result IsAsked }
{
    let connection = read_connection(words)?;
    let bytes = read_bytes(alloc, words.next()?)?;
    words.end()?;
    Ok(Line::Dbus { connection, bytes })
}

#[tactic(auto, unfolding(crate::specs::Line::hang_line))]
fn read_hang_line(words: &mut Words) -> Result<Line, LineError>
    ensures says { Says result (hang_line words.old) }
    ensures asked { IfOk result IsAsked }
{
    let connection = read_connection(words)?;
    words.end()?;
    Ok(Line::Hang { connection })
}

/// Takes the number of a connection.
#[tactic(auto, unfolding(crate::specs::Line::connection))]
fn read_connection(words: &mut Words) -> Result<u16, LineError>
    ensures read { Reads result words.new (connection words.old) }
    ensures bounded { IfOk result (λ connection. connection < 10000) }
{
    let word = words.next()?;
    match read_number(word.as_bytes(), 9_999) {
        Some(number) => Ok(number as u16),
        None => Err(LineError::BadLine),
    }
}
