//! Rules that are made of alternatives, and chains of their own.
ghost use Rattle.std.specs.Prelude.{◌≡◌, ◌++◌, [], ◌∷◌, IfOk, OnOk};
ghost use Rattle.lower_zone.specs.Forms.{each, is, jump_to, limit_matches, limited, statement};
ghost use Rattle.lower_zone.specs.Work.{HasOwn};

use crate::names::own_name;
use fw_addr::Limit;
use fw_base::{Memory, Seq, Text, TryCopy};
use fw_model::Verdict;
use nf_rules::{Chain, Match, Rule, Stmt, Test};
use std::alloc::Global;

/// A list of one item.
pub fn one<T: Drop>(alloc: Global, item: T) -> Result<Seq<T>, Memory>
    ensures { IfOk result (λ list. list ≡ item ∷ []) }
{
    let mut list = Seq::new(alloc);
    list.push(item)?;
    Ok(list)
}

/// A test that must hold.
pub fn is(test: Test) -> Match
    ensures { result ≡ is test }
{
    Match { not: false, test }
}

/// An alternative within a limit.
fn within(
    alloc: Global,
    alternative: &Seq<Match>,
    limit: Option<Limit>,
) -> Result<Seq<Match>, Memory>
    ensures { IfOk result (λ matches. matches ≡ alternative.now ++ limit_matches limit) }
{
    let mut matches = alternative.copy(alloc)?;
    if let Some(limit) = limit {
        matches.push(is(Test::Limit(limit)))?;
    }
    Ok(matches)
}

/// Alternatives, each within a limit.
pub fn limited(
    alloc: Global,
    alternatives: &[Seq<Match>],
    limit: Option<Limit>,
) -> Result<Seq<Seq<Match>>, Memory>
    ensures { IfOk result (λ made. made ≡ limited limit alternatives.now) }
{
    let mut made = Seq::new(alloc);
    for alternative in alternatives {
        made.push(within(alloc, alternative, limit)?)?;
    }
    Ok(made)
}

/// Appends a rule for each alternative.
pub fn push_each(
    alloc: Global,
    alternatives: Seq<Seq<Match>>,
    stmts: &Seq<Stmt>,
    rules: &mut Seq<Rule>,
) -> Result<(), Memory>
    ensures { OnOk result (rules.new ≡ rules.old ++ each stmts.now alternatives) }
{
    for matches in alternatives.into_vec() {
        let stmts = stmts.copy(alloc)?;
        rules.push(Rule { matches, stmts })?;
    }
    Ok(())
}

/// The statement of a verdict.
pub fn statement(verdict: Verdict) -> Stmt
    ensures { result ≡ statement verdict }
{
    match verdict {
        Verdict::Accept => Stmt::Accept,
        Verdict::Drop => Stmt::Drop,
        Verdict::Reject(kind) => Stmt::Reject(kind),
    }
}

/// Appends rules that decide what meets one of the alternatives.
pub fn push_decision(
    alloc: Global,
    alternatives: Seq<Seq<Match>>,
    verdict: Verdict,
    rules: &mut Seq<Rule>,
) -> Result<(), Memory>
    ensures { OnOk result (rules.new ≡ rules.old ++ each (statement verdict ∷ []) alternatives) }
{
    let stmts = one(alloc, statement(verdict))?;
    push_each(alloc, alternatives, &stmts, rules)
}

/// A rule that jumps to a chain.
pub fn jump_to(alloc: Global, name: &Text) -> Result<Rule, Memory>
    ensures { IfOk result (λ rule. rule ≡ jump_to name.now) }
{
    let name = name.copy(alloc)?;
    Ok(Rule {
        matches: Seq::new(alloc),
        stmts: one(alloc, Stmt::Jump(name))?,
    })
}

/// Appends a chain of its own, under the next number of the block, and a jump to it.
pub fn push_own(
    alloc: Global,
    block: &Text,
    own: Seq<Rule>,
    rules: &mut Seq<Rule>,
    chains: &mut Seq<Chain>,
) -> Result<(), Memory>
    ensures { OnOk result (HasOwn block.now own rules.old rules.new chains.old chains.new) }
{
    let name = own_name(alloc, chains.as_slice().len(), block)?;
    rules.push(jump_to(alloc, &name)?)?;
    chains.push(Chain {
        name,
        base: None,
        rules: own,
    })
}
