//! The rule of the table, and what each step on its word tells the pass that makes it.
ghost use Rattle.turn_core.specs.Knowledge.{first_view, kept_view, new_view, joined_view, spent};
ghost use Rattle.turn_core.specs.Plays.{Keeps, Looked, Tries, Committed, Left, SlotOut, SlotIn};

use crate::journaled::Journaled;
use crate::view::View;
use atomic_table::{Join, Play, Split, TableRule};

/// There is one history.
pub struct OneHistory;

impl<S: Journaled> TableRule<Option<S>, View<S::Base, S::Entry>, S> for OneHistory {
    ghost holds = { λ key. Keeps S.base S.entries S.session (S.base key) };

    ghost first = { λ key. first_view (S.base key) };
}

/// A load.
pub struct Look;

impl<S: Journaled> Play<Option<S>, View<S::Base, S::Entry>> for Look {
    ghost then = { Looked S.base S.entries S.session };
}

/// A take, or a failed take.
pub struct Take;

impl<S: Journaled> Play<Option<S>, View<S::Base, S::Entry>> for Take {
    ghost then = { Tries S.base S.entries S.session };
}

/// A commit.
pub struct Commit;

impl<S: Journaled> Play<Option<S>, View<S::Base, S::Entry>> for Commit {
    ghost then = { Committed S.base S.entries S.session };
}

/// A leave.
pub struct Leave;

impl<S: Journaled> Play<Option<S>, View<S::Base, S::Entry>> for Leave {
    ghost then = { Left S.base S.entries S.session };
}

/// The empty slot goes out, at the opening.
pub struct SlotGoesOut;

impl<S: Journaled> Play<Option<S>, View<S::Base, S::Entry>> for SlotGoesOut {
    ghost then = { SlotOut S.base S.entries S.session };
}

/// The empty slot comes home, at the close.
pub struct SlotComesHome;

impl<S: Journaled> Play<Option<S>, View<S::Base, S::Entry>> for SlotComesHome {
    ghost then = { SlotIn S.base S.entries S.session };
}

/// A view is cut in two, and a new pass has the second.
pub struct Halves;

impl<B, E> Split<View<B, E>> for Halves {
    ghost left = { kept_view };

    ghost right = { new_view };
}

/// Two views become one, and the second pass is spent.
pub struct Both;

impl<B, E> Join<View<B, E>> for Both {
    ghost both = { joined_view };

    ghost spent = { spent };
}
