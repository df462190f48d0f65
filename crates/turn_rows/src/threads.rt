//! Two and four threads, each with a pass of its own.
ghost use Rattle.std.specs.Prelude.{◌≡◌, ◌%◌, false};
ghost use Rattle.turn_rows.specs.Work.{Keeps, Joins};

use crate::journal::Journal;
use crate::worker::work;
use std::sync::Wait;
use std::thread;
use std::thread::Threads;
use turn_core::{Pass, Turn};

/// A pass after its work, and whether all entries were made.
#[derive(Drop)]
pub struct Worked {
    /// The pass.
    pub pass: Pass<Journal>,
    /// Whether all entries were made.
    pub all: bool,
}

/// Works with one pass.
pub fn alone<R: Wait>(rt: &R, turn: &Turn<Journal>, mut pass: Pass<Journal>, commits: u64) -> Worked
    requires turn { pass.turn ≡ turn.now.turn }
    requires free { pass.knows.holds ≡ false }
    ensures { Keeps pass result.pass × (result.pass.knows.holds ≡ false) }
{
    let all = work(rt, turn, &mut pass, commits);
    Worked { pass, all }
}

/// Works in two threads, with half of the pass each.
pub fn pair<R: Threads + Wait + Sync>(
    rt: &R,
    turn: &Turn<Journal>,
    mut pass: Pass<Journal>,
    commits: u64,
) -> Worked
    requires turn { pass.turn ≡ turn.now.turn }
    requires free { pass.knows.holds ≡ false }
    requires parts { pass.knows.parts % 2 ≡ 0 }
    ensures { Keeps pass result.pass × (result.pass.knows.holds ≡ false) }
{
    let Ok(other) = turn.split(&mut pass) else {
        return Worked { pass, all: false };
    };
    let (first, second) = thread::join(
        rt,
        move ||
            requires { (pass.turn ≡ turn.now.turn) × (pass.knows.holds ≡ false) }
            ensures { Keeps pass result.pass × (result.pass.knows.holds ≡ false) }
        { alone(rt, turn, pass, commits) },
        move ||
            requires { (other.turn ≡ turn.now.turn) × (other.knows.holds ≡ false) }
            ensures { Keeps other result.pass × (result.pass.knows.holds ≡ false) }
        { alone(rt, turn, other, commits) },
    );
    together(turn, first, second)
}

/// Joins the passes of two threads.
fn together(turn: &Turn<Journal>, first: Worked, second: Worked) -> Worked
    requires turn { (first.pass.turn ≡ turn.now.turn) × (second.pass.turn ≡ turn.now.turn) }
    requires free { (first.pass.knows.holds ≡ false) × (second.pass.knows.holds ≡ false) }
    ensures { Joins first.pass second.pass result.pass }
{
    let Worked { mut pass, all } = first;
    let Worked {
        pass: other,
        all: others,
    } = second;
    turn.join(&mut pass, other);
    Worked {
        pass,
        all: all && others,
    }
}

/// Works in four threads, with a quarter of the pass each.
pub fn four<R: Threads + Wait + Sync>(
    rt: &R,
    turn: &Turn<Journal>,
    mut pass: Pass<Journal>,
    commits: u64,
) -> Worked
    requires turn { pass.turn ≡ turn.now.turn }
    requires free { pass.knows.holds ≡ false }
    requires parts { pass.knows.parts % 4 ≡ 0 }
    ensures { Keeps pass result.pass × (result.pass.knows.holds ≡ false) }
{
    let Ok(other) = turn.split(&mut pass) else {
        return Worked { pass, all: false };
    };
    let (first, second) = thread::join(
        rt,
        move ||
            requires { (pass.turn ≡ turn.now.turn) × (pass.knows.holds ≡ false) × (pass.knows.parts % 2 ≡ 0) }
            ensures { Keeps pass result.pass × (result.pass.knows.holds ≡ false) }
        { pair(rt, turn, pass, commits) },
        move ||
            requires { (other.turn ≡ turn.now.turn) × (other.knows.holds ≡ false) × (other.knows.parts % 2 ≡ 0) }
            ensures { Keeps other result.pass × (result.pass.knows.holds ≡ false) }
        { pair(rt, turn, other, commits) },
    );
    together(turn, first, second)
}
