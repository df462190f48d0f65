//! A pass: the right to try for the turn.
ghost use Rattle.std.specs.Prelude.{◌≡◌};
ghost use Rattle.turn_core.specs.Passes.{IsSound};
ghost use Rattle.turn_core.specs.Seats.{IsSeated};

use crate::journaled::Journaled;
use crate::view::View;
use atomic_table::Seat;
use std::marker::Model;

/// What a caller needs to try for a turn. It has no bytes. Contracts see the turn that it is of, and what it knows: a front
/// of the history, and which of its places are the pass's own.
pub struct Pass<S: Journaled> {
    pub(crate) seat: Seat<Option<S>, View<S::Base, S::Entry>>,
}

impl<S: Journaled> Model for Pass<S> {
    ghost use Rattle.turn_core.specs.Passes.{Knowing};
    ghost use Rattle.turn_core.specs.Seats.{IsSeated};

    ghost Value = { Knowing S.Base S.Entry };

    ghost view = { λ p. record { turn = p.seat.table_id; knows = p.seat.me.0.knows } };

    ghost invariant = { λ p. IsSeated S.session p.seat.me };
}

impl<S: Journaled> Pass<S> {
    /// What holds of every pass by itself: it has a part; its places are ascending places of what it has seen; every entry of
    /// a session that it opened is its own, and no other is; and with all parts every place is.
    pub fn laws(&self)
        ensures { IsSound S.session self.now.knows }
    {
        let _ = &self.seat;
    }

    // The seat that the pass is.
    pub(crate) fn into_seat(self) -> Seat<Option<S>, View<S::Base, S::Entry>>
        ensures turn { result.table_id ≡ self.turn }
        ensures knows { result.me.0.knows ≡ self.knows }
        ensures seated { IsSeated S.session result.me }
    {
        let Self { seat } = self;
        seat
    }
}

impl<S: Journaled> Drop for Pass<S> {
    fn drop(self) {
        let Self { seat: _ } = self;
    }
}
