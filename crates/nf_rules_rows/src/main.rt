//! Prints a ruleset that has each test with and without `not`, each statement, each kind of set and map, empty and not, and
//! each hook; and before it the ruleset without anything. The file stdout beside src/ was written by hand from nft(8)'s
//! forms.
#![tactic(auto)]

mod statements;
mod tables;
mod tests;

use anyhow::Result;
use fw_base::{Memory, Seq, Text};
use nf_rules::{Base, Chain, ChainKind, Hook, Ruleset, print};
use std::alloc::Global;
use tables::{maps, sets};

fn main(rt: HostRuntime) -> Result<()> {
    let alloc = rt.alloc();
    print!(rt; "{}", print(alloc, &nothing(alloc))?.as_str())?;
    print!(rt; "{}", print(alloc, &everything(alloc)?)?.as_str())?;
    Ok(())
}

fn nothing(alloc: Global) -> Ruleset {
    Ruleset {
        chains: Seq::new(alloc),
        sets: Seq::new(alloc),
        maps: Seq::new(alloc),
    }
}

fn everything(alloc: Global) -> Result<Ruleset> {
    let mut chains = Seq::new(alloc);
    chains.push(base(alloc, "forward", ChainKind::Filter, Hook::Forward, 10)?)?;
    chains.push(base(alloc, "input", ChainKind::Filter, Hook::Input, 10)?)?;
    chains.push(base(alloc, "output", ChainKind::Filter, Hook::Output, 0)?)?;
    chains.push(base(alloc, "postrouting", ChainKind::Nat, Hook::Postrouting, 110)?)?;
    chains.push(base(alloc, "prerouting", ChainKind::Nat, Hook::Prerouting, -90)?)?;
    chains.push(statements::chain(alloc)?)?;
    chains.push(tests::chain(alloc)?)?;
    Ok(Ruleset {
        chains,
        sets: sets(alloc)?,
        maps: maps(alloc)?,
    })
}

/// A base chain without rules.
fn base(
    alloc: Global,
    name: &str,
    kind: ChainKind,
    hook: Hook,
    priority: i32,
) -> Result<Chain, Memory> {
    Ok(Chain {
        name: Text::of(alloc, name)?,
        base: Some(Base {
            kind,
            hook,
            priority,
        }),
        rules: Seq::new(alloc),
    })
}
