//! The ruleset of panic mode.
ghost use Rattle.std.specs.Prelude.{◌≡◌, IfOk};
ghost use Rattle.lower_panic.specs.Panic.{dropping, panic_rules};

use fw_base::{Memory, Seq, Text};
use nf_rules::{Base, Chain, ChainKind, Hook, Rule, Ruleset, Stmt};
use std::alloc::Global;

/// The priority of what comes before all else at a hook (nft(8), "CHAINS", `raw`).
const RAW: i32 = -300;

/// The base chain of a name that drops every packet at a hook.
fn dropping(alloc: Global, name: &str, hook: Hook) -> Result<Chain, Memory>
    ensures { IfOk result (λ chain. chain ≡ dropping name.now hook) }
{
    let mut stmts = Seq::new(alloc);
    stmts.push(Stmt::Drop)?;
    let mut rules = Seq::new(alloc);
    rules.push(Rule {
        matches: Seq::new(alloc),
        stmts,
    })?;
    Ok(Chain {
        name: Text::of(alloc, name)?,
        base: Some(Base {
            kind: ChainKind::Filter,
            hook,
            priority: RAW,
        }),
        rules,
    })
}

/// The ruleset that drops what comes by an interface before routing, and what the host sends as it leaves.
///
/// Refuses for want of memory alone.
pub fn panic_rules(alloc: Global) -> Result<Ruleset, Memory>
    ensures { IfOk result (λ rules. rules ≡ panic_rules) }
{
    let mut chains = Seq::new(alloc);
    chains.push(dropping(alloc, "raw_OUTPUT", Hook::Output)?)?;
    chains.push(dropping(alloc, "raw_PREROUTING", Hook::Prerouting)?)?;
    Ok(Ruleset {
        chains,
        sets: Seq::new(alloc),
        maps: Seq::new(alloc),
    })
}
