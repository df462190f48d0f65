//! What the definitions say of themselves: the history of the turn stands between any two steps.
ghost use Rattle.turn_core.specs.History.{Moment, History};
ghost use Rattle.turn_core.specs.Steps.{Step, IsEventOrNone, opening_moment};

use crate::journaled::Journaled;

/// The history of the turn stands at the opening, and every kind of step that a pass may make keeps it, whatever passes
/// there are and in whatever order they make their steps. A commit is the one step that adds an entry.
pub fn history_stands<S: Journaled>()
    ensures opening { (base : S.Base) → History S.base S.entries S.session base (opening_moment S.base S.entries S.session base) }
    ensures steps { (base : S.Base) (m n : Moment S S.Base S.Entry) → History S.base S.entries S.session base m → Step S.base S.entries S.session base m n → History S.base S.entries S.session base n }
    ensures events { (base : S.Base) (m n : Moment S S.Base S.Entry) → History S.base S.entries S.session base m → Step S.base S.entries S.session base m n → IsEventOrNone m n }
{}
