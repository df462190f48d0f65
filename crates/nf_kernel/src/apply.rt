//! What a transaction makes of a ruleset.
ghost use Rattle.std.specs.Prelude.{◌≡◌, ◌↔◌, None, Some, IsTrue, IfOk, IfSome};
ghost use Rattle.nf_sound.specs.Names.{AreByName};
ghost use Rattle.nf_kernel.specs.Transactions.{Fits, apply, done};

use crate::part::{take_part, with_part};
use fw_base::{Memory, Seq, TryCopy};
use nf_rules::{Command, Ruleset};
use nf_sound::is_sound;
use std::alloc::Global;

/// The ruleset that the commands make, done in their order; None where one of them deletes what isn't there. The ruleset stays.
///
/// Refuses for want of memory alone.
pub fn applied(
    alloc: Global,
    rules: &Ruleset,
    commands: &[Command],
) -> Result<Option<Ruleset>, Memory>
    requires by_name { AreByName rules.now }
    ensures after { IfOk result (λ after. after ≡ apply commands.now rules.now) }
    ensures by_name { IfOk result (λ after. IfSome after AreByName) }
{
    let mut after = start(alloc, rules, commands)?;
    for command in commands {
        match one_done(alloc, after, command)? {
            Some(next) => after = next,
            None => return Ok(None),
        }
    }
    Ok(Some(after))
}

/// Whether the commands can all be done in their order, and what they make is sound.
///
/// Refuses for want of memory alone.
pub fn fits(alloc: Global, rules: &Ruleset, commands: &[Command]) -> Result<bool, Memory>
    requires by_name { AreByName rules.now }
    ensures { IfOk result (λ answer. IsTrue answer ↔ Fits commands.now rules.now) }
{
    match applied(alloc, rules, commands)? {
        Some(after) => Ok(is_sound(alloc, &after)),
        None => Ok(false),
    }
}

/// What the commands begin with: a copy, and nothing where the first one clears all.
fn start(alloc: Global, rules: &Ruleset, commands: &[Command]) -> Result<Ruleset, Memory>
    ensures by_name { AreByName rules.now → IfOk result (λ first. AreByName first) }
    ensures same { IfOk result (λ first. apply commands.now first ≡ apply commands.now rules.now) }
{
    match commands.first() {
        Some(Command::Clear) => Ok(Ruleset {
            chains: Seq::new(alloc),
            sets: Seq::new(alloc),
            maps: Seq::new(alloc),
        }),
        _ => rules.copy(alloc),
    }
}

/// One command; None where it deletes what isn't there.
fn one_done(alloc: Global, rules: Ruleset, command: &Command) -> Result<Option<Ruleset>, Memory>
    requires by_name { AreByName rules }
    ensures done { IfOk result (λ after. after ≡ done command.now rules) }
    ensures by_name { IfOk result (λ after. IfSome after AreByName) }
{
    let Ruleset {
        mut chains,
        mut sets,
        mut maps,
    } = rules;
    match command {
        Command::Clear => {
            chains = Seq::new(alloc);
            sets = Seq::new(alloc);
            maps = Seq::new(alloc);
        }
        Command::PutChain(chain) => chains = with_part(chains, chain.copy(alloc)?)?,
        Command::PutSet(set) => sets = with_part(sets, set.copy(alloc)?)?,
        Command::PutMap(map) => maps = with_part(maps, map.copy(alloc)?)?,
        Command::DeleteChain(name) => {
            if !take_part(&mut chains, name.as_str()) {
                return Ok(None);
            }
        }
        Command::DeleteSet(name) => {
            if !take_part(&mut sets, name.as_str()) {
                return Ok(None);
            }
        }
        Command::DeleteMap(name) => {
            if !take_part(&mut maps, name.as_str()) {
                return Ok(None);
            }
        }
    }
    Ok(Some(Ruleset { chains, sets, maps }))
}
