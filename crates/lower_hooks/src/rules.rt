//! Rules of one statement.
ghost use Rattle.std.specs.Prelude.{◌≡◌, ◌++◌, [], ◌∷◌, OnOk};
ghost use Rattle.lower_hooks.specs.Rules.{always, where_is};
ghost use Rattle.lower_zone.specs.Forms.{jump_to};

use fw_base::{Memory, Seq, Text};
use fw_model::Verdict;
use lower_zone::{one, statement};
use nf_rules::{Match, Rule, Stmt, Test};
use std::alloc::Global;

/// Appends a rule that decides of every packet.
pub fn push_always(alloc: Global, verdict: Verdict, rules: &mut Seq<Rule>) -> Result<(), Memory>
    ensures { OnOk result (rules.new ≡ rules.old ++ always verdict) }
{
    rules.push(Rule {
        matches: Seq::new(alloc),
        stmts: one(alloc, statement(verdict))?,
    })
}

/// Appends a rule that decides of the packets of a test.
pub fn push_where(
    alloc: Global,
    test: Test,
    verdict: Verdict,
    rules: &mut Seq<Rule>,
) -> Result<(), Memory>
    ensures { OnOk result (rules.new ≡ rules.old ++ where_is test verdict) }
{
    rules.push(Rule {
        matches: one(alloc, Match { not: false, test })?,
        stmts: one(alloc, statement(verdict))?,
    })
}

/// Appends a jump to a chain.
pub fn push_jump(alloc: Global, name: Text, rules: &mut Seq<Rule>) -> Result<(), Memory>
    ensures { OnOk result (rules.new ≡ rules.old ++ jump_to name ∷ []) }
{
    rules.push(Rule {
        matches: Seq::new(alloc),
        stmts: one(alloc, Stmt::Jump(name))?,
    })
}
