//! The turn, which any number of passes take one after another.
ghost use Rattle.std.specs.Prelude.{◌≡◌, ◌%◌, [], true, false, Some, None, length, IfOk, IsOkAnd};
ghost use Rattle.turn_core.specs.Knowledge.{opened, looked, committed, left, halved, split_off};
ghost use Rattle.turn_core.specs.Passes.{IsSound, IfHeld, IfBusy, HasTaken, HasFailed, HasJoined, Adds, Gains};

use crate::journaled::Journaled;
use crate::pass::Pass;
use crate::rule::{
    Both, Commit, Halves, Leave, Look, OneHistory, SlotComesHome, SlotGoesOut, Take,
};
use crate::tried::Tried;
use crate::view::View;
use atomic_table::Table;
use fw_base::Memory;
use std::alloc::Global;
use std::marker::Model;

/// A value that passes take in turn. Its word is twice the number of entries of the history while the turn is free, and one
/// more while a pass holds it.
#[derive(Drop)]
pub struct Turn<S: Journaled> {
    table: Table<Option<S>, View<S::Base, S::Entry>, S, OneHistory, Global>,
}

impl<S: Journaled> Model for Turn<S> {
    ghost use Rattle.std.specs.Prelude.{◌≡◌};
    ghost use Rattle.turn_core.specs.Passes.{Opening};

    ghost Value = { Opening S.Base };

    ghost view = { λ t. record { turn = t.table.shared.table_id; base = S.base t.table.shared.key } };

    ghost invariant = { λ t. (t.table.shared.table_id.words ≡ 1) × (t.table.shared.table_id.slots ≡ 1) };
}

// What was in the slot where nothing was.
fn let_go<S>(nothing: Option<S>)
    requires { nothing ≡ None }
{
    let None = nothing else { unreachable!() };
}

impl<S: Journaled> Turn<S> {
    /// Opens the turn of a value with an empty journal. The pass holds the turn and has all parts; the caller keeps the
    /// value until the pass leaves or commits.
    pub fn open(alloc: Global, first: &S) -> Result<(Turn<S>, Pass<S>), Memory>
        requires { S.entries first.now ≡ [] }
        ensures turn { IfOk result (λ r. (r.0.base ≡ S.base first.now) × (r.1.turn ≡ r.0.turn)) }
        ensures pass { IfOk result (λ r. r.1.knows ≡ looked (opened (S.base first.now)) 1) }
    {
        let (table, mut seat) = Table::vacant(alloc, &[1], 1, first)?;
        table.shared.load::<SlotGoesOut>(&mut seat, 0);
        Ok((Turn { table }, Pass { seat }))
    }

    /// Tries to take the turn, and waits for nobody. Held gives the value, whose journal is the whole history and begins with
    /// all that the pass had seen. Busy gives a word that a step of this call found: an odd one, or one that is greater than
    /// the even word which the step before found.
    pub fn try_take(&self, pass: &mut Pass<S>) -> Tried<S>
        requires turn { pass.old.turn ≡ self.now.turn }
        requires free { pass.old.knows.holds ≡ false }
        ensures turn { pass.new.turn ≡ pass.old.turn }
        ensures held { IfHeld result (λ state. HasTaken S.base S.entries pass.old.knows state pass.new.knows) }
        ensures busy { IfBusy result (λ word. HasFailed pass.old.knows word pass.new.knows) }
        ensures sound { IsSound S.session pass.new.knows }
    {
        let shared = &self.table.shared;
        let word = shared.load::<Look>(&mut pass.seat, 0);
        if word % 2 == 1 {
            return Tried::Busy(word);
        }
        let found = shared.compare_exchange::<Take>(&mut pass.seat, 0, word, word + 1);
        if found != word {
            return Tried::Busy(found);
        }
        match shared.exchange(&mut pass.seat, 0, None) {
            Some(state) => Tried::Held(state),
            None => unreachable!(),
        }
    }

    /// Gives the turn up with a value that has one entry more, which takes its place in the history here. The entry opens its
    /// session, or is of a session that the pass opened.
    pub fn commit(&self, pass: &mut Pass<S>, state: S)
        requires turn { pass.old.turn ≡ self.now.turn }
        requires holds { pass.old.knows.holds ≡ true }
        requires base { pass.old.knows.base ≡ Some (S.base state) }
        requires entry { Adds S.session pass.old.knows (S.entries state) }
        ensures turn { pass.new.turn ≡ pass.old.turn }
        ensures pass { pass.new.knows ≡ committed pass.old.knows (S.entries state) }
        ensures place { Gains pass.old.knows.mine (length pass.old.knows.seen) pass.new.knows.mine }
        ensures sound { IsSound S.session pass.new.knows }
    {
        let entries = state.len();
        let shared = &self.table.shared;
        let_go(shared.exchange(&mut pass.seat, 0, Some(state)));
        shared.store::<Commit>(&mut pass.seat, 0, 2 * entries);
    }

    /// Gives the turn up with a value that has the same journal.
    pub fn leave(&self, pass: &mut Pass<S>, state: S)
        requires turn { pass.old.turn ≡ self.now.turn }
        requires holds { pass.old.knows.holds ≡ true }
        requires base { pass.old.knows.base ≡ Some (S.base state) }
        requires journal { S.entries state ≡ pass.old.knows.seen }
        ensures turn { pass.new.turn ≡ pass.old.turn }
        ensures pass { pass.new.knows ≡ left pass.old.knows }
        ensures sound { IsSound S.session pass.new.knows }
    {
        let entries = state.len();
        let shared = &self.table.shared;
        let_go(shared.exchange(&mut pass.seat, 0, Some(state)));
        shared.store::<Leave>(&mut pass.seat, 0, 2 * entries);
    }

    /// Splits a pass off, which has seen as much, has no place of its own and half of the parts. It needs no memory, since
    /// a pass has no bytes.
    pub fn split(&self, pass: &mut Pass<S>) -> Result<Pass<S>, Memory>
        requires turn { pass.old.turn ≡ self.now.turn }
        requires free { pass.old.knows.holds ≡ false }
        requires parts { pass.old.knows.parts % 2 ≡ 0 }
        ensures turn { pass.new.turn ≡ pass.old.turn }
        ensures pass { pass.new.knows ≡ halved pass.old.knows }
        ensures new { IsOkAnd result (λ r. (r.turn ≡ pass.old.turn) × (r.knows ≡ split_off pass.old.knows)) }
    {
        let seat = self.table.shared.split_seat::<Halves>(&mut pass.seat);
        Ok(Pass { seat })
    }

    /// Joins another pass into this one, which then has the places and the parts of both.
    pub fn join(&self, pass: &mut Pass<S>, other: Pass<S>)
        requires turn { (pass.old.turn ≡ self.now.turn) × (other.turn ≡ self.now.turn) }
        requires free { (pass.old.knows.holds ≡ false) × (other.knows.holds ≡ false) }
        ensures turn { pass.new.turn ≡ pass.old.turn }
        ensures pass { HasJoined pass.old.knows other.knows pass.new.knows }
        ensures sound { IsSound S.session pass.new.knows }
    {
        let shared = &self.table.shared;
        shared.join_seat::<Both>(&mut pass.seat, other.into_seat());
        shared.load::<Look>(&mut pass.seat, 0);
    }

    /// Ends the turn. The pass holds it, so the caller has the value.
    pub fn close(self, pass: Pass<S>)
        requires turn { pass.turn ≡ self.turn }
        requires holds { pass.knows.holds ≡ true }
    {
        let Turn { table } = self;
        let mut seat = pass.into_seat();
        table.shared.load::<SlotComesHome>(&mut seat, 0);
        let mut closed = table.close_with(seat);
        let_go(closed.take(0));
        closed.free();
    }
}
