//! The compiler.
ghost use Rattle.std.specs.Prelude.{IfOk, IsPermutation};
ghost use Rattle.fw_valid.specs.Valid.{IsValid};
ghost use Rattle.lower_all.specs.Compiled.{IsCompiled, IsMade};
ghost use Rattle.lower_all.specs.Joined.{AreJoined};
ghost use Rattle.lower_all.specs.Ordered.{IsOrdered};

use crate::outside::outside_chains;
use crate::sets::sets_of;
use crate::zones::used_zones;
use fw_base::{Memory, Seq};
use fw_model::Runtime;
use lower_blocks::{acting_policies_are_told, push_block, settings_chains};
use lower_changes::{
    bases_run, chains_are_apart, sides_are_apart, sides_hold, sides_stand_outside, sides_work,
    way_is_led,
};
use lower_hooks::{
    forward_chains, hooks_decide, input_chains, one_runs_at_each_hook, output_chains,
};
use lower_panic::{panic_rules, panic_rules_compile};
use nf_goal::Compiler;
use nf_rules::{Chain, Ruleset};
use std::alloc::Global;

/// The compiler of settings to rulesets of nft(8): base chains at input, forward and output, behind them a chain for each zone in use, or
/// for each two of them, and the chains of those settings to which they jump; each ipset as its set. Nothing that no packet can meet
/// has a chain. In panic mode two base chains drop all.
pub struct Nft;

/// Chains in order of their names.
fn by_name(chains: Seq<Chain>) -> Result<Seq<Chain>, Memory>
    ensures moved { IfOk result (λ ordered. IsPermutation chains ordered) }
    ensures sorted { IfOk result (λ ordered. IsOrdered (λ (chain : Chain). chain.name) ordered) }
{
    let mut ordered = chains.into_vec();
    ordered.sort_by(|one, other| one.name.as_str().cmp(&other.name.as_str()))?;
    Ok(Seq::from_vec(ordered))
}

/// All chains: those of the hooks, in which the packets of zones go, those of the settings that they may meet, and those outside the
/// filter.
fn chains_of(alloc: Global, runtime: &Runtime) -> Result<Seq<Chain>, Memory>
    requires { IsValid runtime.now.config }
    ensures { IfOk result (AreJoined runtime.now.config) }
{
    let config = &runtime.config;
    let used = used_zones(alloc, config)?;
    let zones = used.as_slice();
    let mut chains = input_chains(alloc, config, zones)?;
    push_block(forward_chains(alloc, config, zones)?, &mut chains)?;
    push_block(output_chains(alloc, config, zones)?, &mut chains)?;
    push_block(settings_chains(alloc, runtime, zones)?, &mut chains)?;
    push_block(outside_chains(alloc, config, zones)?, &mut chains)?;
    by_name(chains)
}

/// The ruleset of the settings outside panic mode.
fn compiled(alloc: Global, runtime: &Runtime) -> Result<Ruleset, Memory>
    requires { IsValid runtime.now.config }
    ensures { IfOk result (IsCompiled runtime.now.config) }
{
    Ok(Ruleset {
        chains: chains_of(alloc, runtime)?,
        sets: sets_of(alloc, runtime.config.ipsets.as_slice())?,
        maps: Seq::new(alloc),
    })
}

/// The ruleset of the settings in force.
fn made(alloc: Global, runtime: &Runtime) -> Result<Ruleset, Memory>
    requires { IsValid runtime.now.config }
    ensures { IfOk result (IsMade runtime.now.panic runtime.now.config) }
{
    if runtime.panic {
        panic_rules(alloc)
    } else {
        compiled(alloc, runtime)
    }
}

impl Compiler for Nft {
    ghost use Rattle.lower_all.specs.Compiled.{IsMade};

    ghost makes = { λ compiler runtime rules. IsMade runtime.panic runtime.config rules };

    fn compile(&self, alloc: Global, runtime: &Runtime) -> Result<Ruleset, Memory> {
        hooks_decide();
        one_runs_at_each_hook();
        acting_policies_are_told();
        sides_work();
        sides_hold();
        bases_run();
        chains_are_apart();
        sides_are_apart();
        sides_stand_outside();
        way_is_led();
        panic_rules_compile();
        made(alloc, runtime)
    }
}
