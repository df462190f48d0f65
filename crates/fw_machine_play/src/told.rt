//! What is printed of an event.
use fw_base::Memory;
use fw_calls::{Applied, Event, Reply, Signal};
use fw_event_told::{push_link, push_reply, push_signal, push_tick};
use std::alloc::Global;

/// What became of an event's save and of its commit.
#[derive(Clone, Copy, Debug, PartialEq, Eq)]
pub struct Results {
    pub save: Applied,
    pub commit: Applied,
}

/// Appends what a client is told of an event: of a tick or a link the line of its result, and then signals; else signals, and then the
/// reply.
pub fn push_told(
    alloc: Global,
    out: &mut String,
    client: u16,
    event: &Event,
    reply: &Reply,
    signals: &[Signal],
) -> Result<(), Memory> {
    match event {
        Event::Tick { now, .. } => {
            push_tick(out, *now, result_of(reply))?;
            push_signals(alloc, out, client, signals)
        }
        Event::Link { up, name, .. } => {
            push_link(out, *up, name, result_of(reply))?;
            push_signals(alloc, out, client, signals)
        }
        Event::Open | Event::Call { .. } | Event::Shut { .. } => {
            push_signals(alloc, out, client, signals)?;
            push_reply(alloc, out, client, reply)
        }
    }
}

fn push_signals(
    alloc: Global,
    out: &mut String,
    client: u16,
    signals: &[Signal],
) -> Result<(), Memory> {
    for signal in signals {
        push_signal(alloc, out, client, signal)?;
    }
    Ok(())
}

/// What became of a tick or an event of a link, by its reply.
fn result_of(reply: &Reply) -> Applied {
    match reply {
        Reply::Event(applied) => *applied,
        _ => Applied::Failed,
    }
}

/// Appends a line for a save and for a commit that was tried.
pub fn push_results(out: &mut String, results: Results) -> Result<(), Memory> {
    push_result(out, results.save, "saved\n", "not saved\n")?;
    push_result(out, results.commit, "committed\n", "not committed\n")
}

fn push_result(out: &mut String, applied: Applied, done: &str, failed: &str) -> Result<(), Memory> {
    match applied {
        Applied::Skipped => {}
        Applied::Done => out.push_str(done)?,
        Applied::Failed => out.push_str(failed)?,
    }
    Ok(())
}
