//! Log lines, each given once.
ghost use Rattle.std.specs.Prelude.{◌≡◌, [], ◌∷◌, Bool, IfOk, OnOk, ℕ};
ghost use Rattle.fw_model.specs.declared.config.Config.{Config};
ghost use Rattle.fw_model.specs.declared.packet.Packet.{Packet};
ghost use Rattle.fw_verdict.specs.Walk.{done};
ghost use Rattle.fw_verdict.specs.Walk.Effect.{log};
ghost use Rattle.nf_rules.specs.declared.statement.Stmt.TheVariants as stmt;
ghost use Rattle.lower_zone.specs.Forms.{line_rules};
ghost use Rattle.lower_zone.specs.Work.{AreNamed, Adds, Tells, under};

use crate::rules::{one, push_each, push_own};
use fw_addr::LogLine;
use fw_base::{Memory, Seq, Text};
use nf_rules::{Chain, Match, Rule, Stmt};
use std::alloc::Global;

/// What logs a line and goes back.
fn line_and_return(alloc: Global, line: LogLine) -> Result<Seq<Stmt>, Memory>
    ensures { IfOk result (λ stmts. stmts ≡ stmt.Log line ∷ stmt.Return ∷ []) }
{
    let mut stmts = one(alloc, Stmt::Log(line))?;
    stmts.push(Stmt::Return)?;
    Ok(stmts)
}

/// The rules of a chain that logs a line once, whichever alternatives a packet meets.
fn line_rules(
    alloc: Global,
    alternatives: Seq<Seq<Match>>,
    line: LogLine,
) -> Result<Seq<Rule>, Memory>
    ensures { IfOk result (λ rules. rules ≡ line_rules line alternatives) }
{
    let stmts = line_and_return(alloc, line)?;
    let mut rules = Seq::new(alloc);
    push_each(alloc, alternatives, &stmts, &mut rules)?;
    Ok(rules)
}

/// The most alternatives whose rules log a line at most once by themselves.
const ALONE: usize = 1;

/// Appends what logs a line for the packets that meet one of the alternatives. A packet may meet several, so that these need a
/// chain of their own, from which the first that is met goes back.
pub fn push_line(
    alloc: Global,
    block: &Text,
    alternatives: Seq<Seq<Match>>,
    line: LogLine,
    rules: &mut Seq<Rule>,
    chains: &mut Seq<Chain>,
) -> Result<(), Memory>
    ensures adds { OnOk result ((config : Config) (condition : Packet → Bool) → Tells config alternatives condition
        → Adds config (under condition (done (log line))) rules.old rules.new chains.old chains.new) }
    ensures names { OnOk result ((parts : ℕ) → AreNamed block.now parts chains.old → AreNamed block.now parts chains.new) }
{
    let count = alternatives.as_slice().len();
    if count <= ALONE {
        let stmts = one(alloc, Stmt::Log(line))?;
        return push_each(alloc, alternatives, &stmts, rules);
    }
    let own = line_rules(alloc, alternatives, line)?;
    push_own(alloc, block, own, rules, chains)
}
