//! What one thread does with its pass.
ghost use Rattle.std.specs.Prelude.{◌≡◌, false, IfSome};
ghost use Rattle.turn_core.specs.Places.{Has};
ghost use Rattle.turn_rows.specs.Work.{Keeps, Holds};

use crate::journal::{Entry, Journal};
use std::sync::Wait;
use std::thread::yield_now;
use turn_core::{Journaled, Pass, Tried, Turn};

/// Tries until it has the turn.
pub fn take<R: Wait>(rt: &R, turn: &Turn<Journal>, pass: &mut Pass<Journal>) -> Journal
    requires turn { pass.old.turn ≡ turn.now.turn }
    requires free { pass.old.knows.holds ≡ false }
    ensures kept { Keeps pass.old pass.new }
    ensures held { Holds pass.new result }
{
    for _ in rt.forever() {
        if let Tried::Held(journal) = turn.try_take(pass) {
            return journal;
        }
        yield_now();
    }
    unreachable!()
}

/// Opens a session, whose place it answers.
pub fn open_session<R: Wait>(rt: &R, turn: &Turn<Journal>, pass: &mut Pass<Journal>) -> Option<u64>
    requires turn { pass.old.turn ≡ turn.now.turn }
    requires free { pass.old.knows.holds ≡ false }
    ensures kept { Keeps pass.old pass.new }
    ensures free { pass.new.knows.holds ≡ false }
    ensures session { IfSome result (λ place. Has pass.new.knows.mine place) }
{
    let mut journal = take(rt, turn, pass);
    let session = journal.len();
    if journal.add(Entry { session, number: 0 }) {
        turn.commit(pass, journal);
        Some(session)
    } else {
        turn.leave(pass, journal);
        None
    }
}

/// Adds an entry to a session of the pass's own, and says whether there was room.
pub fn add<R: Wait>(rt: &R, turn: &Turn<Journal>, pass: &mut Pass<Journal>, entry: Entry) -> bool
    requires turn { pass.old.turn ≡ turn.now.turn }
    requires free { pass.old.knows.holds ≡ false }
    requires session { Has pass.old.knows.mine entry.session }
    ensures kept { Keeps pass.old pass.new }
    ensures free { pass.new.knows.holds ≡ false }
{
    let mut journal = take(rt, turn, pass);
    let added = journal.add(entry);
    if added {
        turn.commit(pass, journal);
    } else {
        turn.leave(pass, journal);
    }
    added
}

/// Opens a session and makes `commits` entries of it in all, which are at least its opening; says whether all were made.
pub fn work<R: Wait>(rt: &R, turn: &Turn<Journal>, pass: &mut Pass<Journal>, commits: u64) -> bool
    requires turn { pass.old.turn ≡ turn.now.turn }
    requires free { pass.old.knows.holds ≡ false }
    ensures kept { Keeps pass.old pass.new }
    ensures free { pass.new.knows.holds ≡ false }
{
    let Some(session) = open_session(rt, turn, pass) else {
        return false;
    };
    let mut all = true;
    for number in 1..commits {
        all = add(rt, turn, pass, Entry { session, number }) && all;
    }
    all
}
