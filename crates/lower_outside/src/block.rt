//! The chains of a block: one that does the steps one after another, and chains of their own for steps that are to be done once.
ghost use Rattle.std.specs.Prelude.{◌≡◌, ◌++◌, List, [], IfOk, OnOk};
ghost use Rattle.fw_model.specs.declared.config.Config.{Config};
ghost use Rattle.fw_verdict.specs.Changes.{ChangeItem};
ghost use Rattle.lower_outside.specs.Changing.{DoSteps};
ghost use Rattle.lower_outside.specs.Names.{NamesDiffer};
ghost use Rattle.lower_outside.specs.Steps.{AreTold};
ghost use Rattle.lower_outside.specs.Work.{Adds, AreNamed, HasOwn, HasStep, is_last, once_rules};

use crate::names::{block_name, own_name};
use crate::steps::Step;
use fw_base::{Memory, Seq, Text};
use fw_verdict::Side;
use lower_zone::{jump_to, one, push_each};
use nf_rules::{Chain, Match, Rule, Stmt};
use std::alloc::Global;

/// The most alternatives whose rules do something at most once by themselves.
const ALONE: usize = 1;

/// Whether a statement ends the base chain, so that no other alternative is looked at behind it.
fn is_last(stmt: &Stmt) -> bool
    ensures { result ≡ is_last stmt.now }
{
    match stmt {
        Stmt::DnatTo(_) => true,
        Stmt::Masquerade => true,
        _ => false,
    }
}

/// The rules of a chain that does something once, whichever alternatives a packet meets.
fn once_rules(alloc: Global, alternatives: Seq<Seq<Match>>, stmt: Stmt) -> Result<Seq<Rule>, Memory>
    ensures { IfOk result (λ rules. rules ≡ once_rules stmt alternatives) }
{
    let mut stmts = one(alloc, stmt)?;
    stmts.push(Stmt::Return)?;
    let mut rules = Seq::new(alloc);
    push_each(alloc, alternatives, &stmts, &mut rules)?;
    Ok(rules)
}

/// Appends a chain of its own, under the next number of the block, and a jump to it.
fn push_own(
    alloc: Global,
    side: Side,
    block: &Text,
    own: Seq<Rule>,
    rules: &mut Seq<Rule>,
    chains: &mut Seq<Chain>,
) -> Result<(), Memory>
    ensures { OnOk result (HasOwn side block.now own rules.old rules.new chains.old chains.new) }
{
    let name = own_name(alloc, side, chains.as_slice().len(), block)?;
    rules.push(jump_to(alloc, &name)?)?;
    chains.push(Chain {
        name,
        base: None,
        rules: own,
    })
}

/// Appends the rules of a step. A packet may meet several of its alternatives, so that a step that doesn't end the base chain needs a
/// chain of its own, from which the first that is met goes back.
fn push_rules(
    alloc: Global,
    side: Side,
    block: &Text,
    step: Step,
    rules: &mut Seq<Rule>,
    chains: &mut Seq<Chain>,
) -> Result<(), Memory>
    ensures { OnOk result (HasStep side block.now step rules.old rules.new chains.old chains.new) }
{
    let Step { alternatives, stmt } = step;
    let count = alternatives.as_slice().len();
    if count <= ALONE || is_last(&stmt) {
        let stmts = one(alloc, stmt)?;
        return push_each(alloc, alternatives, &stmts, rules);
    }
    let own = once_rules(alloc, alternatives, stmt)?;
    push_own(alloc, side, block, own, rules, chains)
}

/// Appends the rules of steps, one after another.
fn push_all(
    alloc: Global,
    side: Side,
    block: &Text,
    steps: Seq<Step>,
    rules: &mut Seq<Rule>,
    chains: &mut Seq<Chain>,
) -> Result<(), Memory>
    ensures adds { OnOk result ((config : Config) (items : List ChangeItem) → AreTold config steps items → Adds config items rules.old rules.new chains.old chains.new) }
    ensures names { OnOk result (AreNamed side block.now chains.old → AreNamed side block.now chains.new) }
{
    for step in steps.into_vec() {
        push_rules(alloc, side, block, step, rules, chains)?;
    }
    Ok(())
}

/// The chains of a block, which do its steps.
///
/// Refuses for want of memory alone.
pub fn block_chains(
    alloc: Global,
    side: Side,
    block: &Text,
    steps: Seq<Step>,
) -> Result<Seq<Chain>, Memory>
    ensures does { IfOk result (λ chains. (config : Config) (items : List ChangeItem) → AreTold config steps items → DoSteps config side block.now items chains) }
    ensures names { IfOk result (λ chains. NamesDiffer side block.now chains) }
{
    let mut rules = Seq::new(alloc);
    let mut chains = Seq::new(alloc);
    push_all(alloc, side, block, steps, &mut rules, &mut chains)?;
    let name = block_name(alloc, side, block)?;
    chains.push(Chain {
        name,
        base: None,
        rules,
    })?;
    Ok(chains)
}
