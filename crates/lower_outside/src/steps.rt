//! The steps of settings on the way to rules.
ghost use Rattle.std.specs.Prelude.{◌≡◌, ◌++◌, ◌∷◌, [], OnOk};

use fw_base::{Memory, Seq};
use nf_rules::{Match, Stmt};

/// What is done with the packets that meet one of the alternatives: once, whichever of them they meet.
#[derive(Drop)]
pub struct Step {
    pub alternatives: Seq<Seq<Match>>,
    pub stmt: Stmt,
}

/// Appends a step.
pub fn push_step(
    alternatives: Seq<Seq<Match>>,
    stmt: Stmt,
    steps: &mut Seq<Step>,
) -> Result<(), Memory>
    ensures { OnOk result (steps.new ≡ steps.old ++ record { alternatives = alternatives; stmt = stmt } ∷ []) }
{
    steps.push(Step { alternatives, stmt })
}
