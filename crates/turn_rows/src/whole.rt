//! Whole runs: a turn is opened, threads work, and the turn is closed.
ghost use Rattle.std.specs.Prelude.{◌≡◌, false, IfSome};
ghost use Rattle.turn_core.specs.Knowledge.{all_parts};
ghost use Rattle.turn_rows.specs.Work.{Holds, HasAll, IsFresh};

use crate::journal::Journal;
use crate::threads::{alone, four, pair};
use crate::worker::take;
use std::alloc::Global;
use std::sync::Wait;
use std::thread::Threads;
use turn_core::{Pass, Turn};

/// Opens a turn with an empty journal, and leaves it. The pass has all parts.
pub fn start(alloc: Global, name: u64) -> Option<(Turn<Journal>, Pass<Journal>)>
    ensures { IfSome result (λ r. IsFresh r.0 r.1) }
{
    let journal = Journal::new(alloc, name);
    let Ok((turn, mut pass)) = Turn::open(alloc, &journal) else {
        return None;
    };
    turn.leave(&mut pass, journal);
    Some((turn, pass))
}

/// Takes the turn with a pass that has all parts: every place of the journal is its own.
pub fn take_all<R: Wait>(rt: &R, turn: &Turn<Journal>, pass: &mut Pass<Journal>) -> Journal
    requires turn { pass.old.turn ≡ turn.now.turn }
    requires free { pass.old.knows.holds ≡ false }
    requires parts { pass.old.knows.parts ≡ all_parts }
    ensures turn { pass.new.turn ≡ pass.old.turn }
    ensures held { Holds pass.new result }
    ensures places { HasAll pass.new result }
{
    let journal = take(rt, turn, pass);
    pass.laws();
    journal
}

/// Takes the turn with a pass that has all parts, and closes it.
fn finish<R: Wait>(rt: &R, turn: Turn<Journal>, mut pass: Pass<Journal>) -> Journal
    requires turn { pass.turn ≡ turn.turn }
    requires free { pass.knows.holds ≡ false }
    requires parts { pass.knows.parts ≡ all_parts }
{
    let journal = take_all(rt, &turn, &mut pass);
    turn.close(pass);
    journal
}

/// One thread makes `commits` entries of one session. Answers the journal if all were made.
pub fn run_one<R: Wait>(rt: &R, alloc: Global, commits: u64) -> Option<Journal> {
    let (turn, pass) = start(alloc, 1)?;
    let worked = alone(rt, &turn, pass, commits);
    let journal = finish(rt, turn, worked.pass);
    worked.all.then_some(journal)
}

/// Two threads make `commits` entries each, of a session of their own.
pub fn run_two<R: Threads + Wait + Sync>(rt: &R, alloc: Global, commits: u64) -> Option<Journal> {
    let (turn, pass) = start(alloc, 2)?;
    let worked = pair(rt, &turn, pass, commits);
    let journal = finish(rt, turn, worked.pass);
    worked.all.then_some(journal)
}

/// Four threads do the same.
pub fn run_four<R: Threads + Wait + Sync>(rt: &R, alloc: Global, commits: u64) -> Option<Journal> {
    let (turn, pass) = start(alloc, 4)?;
    let worked = four(rt, &turn, pass, commits);
    let journal = finish(rt, turn, worked.pass);
    worked.all.then_some(journal)
}
