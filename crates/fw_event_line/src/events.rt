//! Events, by the words of a line.
ghost use Rattle.std.specs.Prelude.{◌≡◌, ◌<◌, ◌==◌, IfOk};
ghost use Rattle.std.specs.List.{list_any};
ghost use Rattle.std.specs.Option.{ok_or};
ghost use Rattle.fw_event_line.specs.Bounds.{IsBounded};
ghost use Rattle.fw_event_line.specs.Events.{call_line, client, end_line, event_line, is_up, link_line, link_name, tick_line};
ghost use Rattle.fw_words.specs.Keys.{texts};
ghost use Rattle.fw_words.specs.Reading.{Reads, Says};

use super::EventLine;
use super::calls::read_call;
use fw_addr::{Iface, read_iface};
use fw_text::read_number;
use fw_words::{LineError, Words};
use std::alloc::Global;

/// The latest time that can be told, in seconds.
const LAST_TIME: u64 = 1 << 62;

/// The event that the words of a line tell.
///
/// BadLine is answered exactly for words that tell none. A client's number is at most 9999, a time at most 2^62, and a link's name has no
/// `+`.
#[tactic(auto, unfolding(crate::specs::Events::event_line))]
pub fn read_event(alloc: Global, words: &[&str]) -> Result<EventLine, LineError>
    ensures says { Says result (event_line (texts words.now)) }
    ensures bounded { IfOk result IsBounded }
{
    let [kind, rest @ ..] = words else {
        return Err(LineError::BadLine);
    };
    match *kind {
        "call" => read_call_line(alloc, &mut Words::of(rest)),
        "end" => read_end_line(&mut Words::of(rest)),
        "tick" => read_tick_line(&mut Words::of(rest)),
        "link" => read_link_line(&mut Words::of(rest)),
        _ => Err(LineError::BadLine),
    }
}

#[tactic(auto, unfolding(crate::specs::Events::call_line))]
fn read_call_line(alloc: Global, words: &mut Words) -> Result<EventLine, LineError>
    ensures says { Says result (call_line words.old) }
    ensures bounded { IfOk result IsBounded }
{
    let client = read_client(words)?;
    let asked = read_call(alloc, words)?;
    Ok(EventLine::Call { client, asked })
}

#[tactic(auto, unfolding(crate::specs::Events::end_line))]
fn read_end_line(words: &mut Words) -> Result<EventLine, LineError>
    ensures says { Says result (end_line words.old) }
    ensures bounded { IfOk result IsBounded }
{
    let client = read_client(words)?;
    words.end()?;
    Ok(EventLine::End { client })
}

#[tactic(auto, unfolding(crate::specs::Events::tick_line))]
fn read_tick_line(words: &mut Words) -> Result<EventLine, LineError>
    ensures says { Says result (tick_line words.old) }
    ensures bounded { IfOk result IsBounded }
{
    let word = words.next()?;
    let Some(now) = read_number(word.as_bytes(), LAST_TIME) else {
        return Err(LineError::BadLine);
    };
    words.end()?;
    Ok(EventLine::Tick { now })
}

#[tactic(auto, unfolding(crate::specs::Events::link_line))]
fn read_link_line(words: &mut Words) -> Result<EventLine, LineError>
    ensures says { Says result (link_line words.old) }
    ensures bounded { IfOk result IsBounded }
{
    let up = is_up(words.next()?)?;
    let name = link_name(words.next()?)?;
    words.end()?;
    Ok(EventLine::Link { up, name })
}

/// Takes the number of a client.
#[tactic(auto, unfolding(crate::specs::Events::client))]
fn read_client(words: &mut Words) -> Result<u16, LineError>
    ensures read { Reads result words.new (client words.old) }
    ensures bounded { IfOk result (λ client. client < 10000) }
{
    let word = words.next()?;
    match read_number(word.as_bytes(), 9_999) {
        Some(number) => Ok(number as u16),
        None => Err(LineError::BadLine),
    }
}

/// Whether a link came up or is gone.
fn is_up(word: &str) -> Result<bool, LineError>
    ensures { result ≡ ok_or (is_up word.now) LineError.BadLine }
{
    match word {
        "up" => Ok(true),
        "gone" => Ok(false),
        _ => Err(LineError::BadLine),
    }
}

/// A link's name, which has no `+`.
#[tactic(auto, unfolding(crate::specs::Events::link_name))]
fn link_name(text: &str) -> Result<Iface, LineError>
    ensures { result ≡ ok_or (link_name text.now) LineError.BadLine }
{
    if has_plus(text) {
        return Err(LineError::BadLine);
    }
    read_iface(text).map_err(|_| LineError::BadLine)
}

fn has_plus(text: &str) -> bool
    ensures { result ≡ list_any (λ byte. byte == 43) text.now }
{
    text.as_bytes().iter().any(|byte| *byte == b'+')
}
