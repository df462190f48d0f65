//! The chains of the three hooks, and of the zones behind them.
ghost use Rattle.std.specs.Prelude.{◌≡◌, ◌++◌, ◌∷◌, [], codes, IfOk, OnOk};
ghost use Rattle.fw_order.specs.Borrowed.{lent};
ghost use Rattle.fw_model.specs.declared.zone.Zone.{Zone};
ghost use Rattle.fw_zone.specs.Lists.{IsIn};
ghost use Rattle.lower_dispatch.specs.Dispatch.{Dispatches};
ghost use Rattle.lower_hooks.specs.Chains.{ForwardWorks, Grows, HasChain, HasPairs, InputWorks, OutputWorks, base_chain};
ghost use Rattle.lower_hooks.specs.Leads.{ForwardLeads, HasLeads, InputLeads, IsForwardTarget, IsInputTarget, IsOutputTarget, OutputLeads, PairsLead};
ghost use Rattle.lower_hooks.specs.Names.{forward_names, from_names, input_start, names_of, output_start, pair_start, zone_names};
ghost use Rattle.lower_hooks.specs.Rules.{early_rules, known_rules, lo_out};
ghost use Rattle.lower_hooks.specs.Zones.{ForwardStands, InputStands, OutputStands, host_to_zone, zone_to_host, zone_to_zone};
ghost use Rattle.lower_zone.specs.Forms.{chain_named};

use crate::early::{push_early, push_known, push_lo};
use crate::forward::forward_rules;
use crate::input::input_rules;
use crate::names::{joined, pair_start};
use crate::output::output_rules;
use fw_base::{Memory, Seq, Text};
use fw_model::{Config, Zone};
use lower_dispatch::{Direction, dispatch};
use lower_zone::one;
use nf_rules::{Base, Chain, ChainKind, Hook, Rule};
use std::alloc::Global;

/// The priority of the filter chains among the base chains of their hooks.
const FILTER_PRIORITY: i32 = 10;

/// A chain that packets meet at a hook.
fn base_chain(alloc: Global, name: &str, hook: Hook, rules: Seq<Rule>) -> Result<Chain, Memory>
    ensures { IfOk result (λ chain. chain ≡ base_chain name.now hook rules) }
{
    Ok(Chain {
        name: Text::of(alloc, name)?,
        base: Some(Base {
            kind: ChainKind::Filter,
            hook,
            priority: FILTER_PRIORITY,
        }),
        rules,
    })
}

/// Appends a chain that runs only where a rule leads to it.
fn push_chain(name: Text, rules: Seq<Rule>, chains: &mut Seq<Chain>) -> Result<(), Memory>
    ensures { OnOk result (chains.new ≡ chains.old ++ chain_named name rules ∷ []) }
{
    chains.push(Chain {
        name,
        base: None,
        rules,
    })
}

fn push_rules(more: Seq<Rule>, rules: &mut Seq<Rule>) -> Result<(), Memory>
    ensures { OnOk result (rules.new ≡ rules.old ++ more) }
{
    for rule in more.into_vec() {
        rules.push(rule)?;
    }
    Ok(())
}

/// The rules that all packets to the host and all that are forwarded meet.
fn input_base(alloc: Global, config: &Config, dispatched: Seq<Rule>) -> Result<Seq<Rule>, Memory>
    ensures { IfOk result (λ rules. rules ≡ early_rules config.now ++ dispatched) }
{
    let mut rules = Seq::new(alloc);
    push_early(alloc, config, &mut rules)?;
    push_rules(dispatched, &mut rules)?;
    Ok(rules)
}

/// The rules that all packets of the host meet.
fn output_base(alloc: Global, dispatched: Seq<Rule>) -> Result<Seq<Rule>, Memory>
    ensures { IfOk result (λ rules. rules ≡ (known_rules ++ lo_out) ++ dispatched) }
{
    let mut rules = Seq::new(alloc);
    push_known(alloc, &mut rules)?;
    push_lo(alloc, &mut rules)?;
    push_rules(dispatched, &mut rules)?;
    Ok(rules)
}

/// Appends a chain for the packets of a zone to the host.
fn push_input(
    alloc: Global,
    config: &Config,
    zone: &Zone,
    chains: &mut Seq<Chain>,
) -> Result<(), Memory>
    ensures grows { OnOk result (Grows chains.old chains.new) }
    ensures there { OnOk result (HasChain config.now (InputStands config.now zone.now) (zone_to_host config.now zone.now) (input_start ++ zone.now.name) chains.new) }
    ensures names { OnOk result (names_of chains.new ≡ names_of chains.old ++ (input_start ++ zone.now.name) ∷ []) }
    ensures leads { OnOk result (HasLeads config.now (IsInputTarget config.now zone.now) (input_start ++ zone.now.name) chains.new) }
{
    let rules = input_rules(alloc, config, zone)?;
    let name = joined(alloc, "filter_INPUT_", &zone.name)?;
    push_chain(name, rules, chains)
}

fn push_inputs(
    alloc: Global,
    config: &Config,
    zones: &[&Zone],
    chains: &mut Seq<Chain>,
) -> Result<(), Memory>
    ensures grows { OnOk result (Grows chains.old chains.new) }
    ensures there { OnOk result ((zone : Zone) → IsIn zone (lent zones.now)
        → HasChain config.now (InputStands config.now zone) (zone_to_host config.now zone) (input_start ++ zone.name) chains.new) }
    ensures names { OnOk result (names_of chains.new ≡ names_of chains.old ++ zone_names input_start (lent zones.now)) }
    ensures leads { OnOk result ((zone : Zone) → IsIn zone (lent zones.now) → HasLeads config.now (IsInputTarget config.now zone) (input_start ++ zone.name) chains.new) }
{
    for zone in zones {
        push_input(alloc, config, zone, chains)?;
    }
    Ok(())
}

/// The chains for packets to the host: what all of them meet, and a chain for each of these zones, to which packets go that come from
/// it.
///
/// Refuses for want of memory alone.
pub fn input_chains(alloc: Global, config: &Config, zones: &[&Zone]) -> Result<Seq<Chain>, Memory>
    ensures works { IfOk result (λ chains. InputWorks config.now (lent zones.now) chains) }
    ensures names { IfOk result (λ chains. names_of chains ≡ codes "filter_INPUT" ∷ zone_names input_start (lent zones.now)) }
    ensures leads { IfOk result (λ chains. InputLeads config.now (lent zones.now) chains) }
{
    let dispatched = dispatch(alloc, config, Direction::Ingress, "filter_INPUT_")?;
    let rules = input_base(alloc, config, dispatched)?;
    let mut chains = one(
        alloc,
        base_chain(alloc, "filter_INPUT", Hook::Input, rules)?,
    )?;
    push_inputs(alloc, config, zones, &mut chains)?;
    Ok(chains)
}

/// Appends a chain for the packets of the host to a zone.
fn push_output(
    alloc: Global,
    config: &Config,
    zone: &Zone,
    chains: &mut Seq<Chain>,
) -> Result<(), Memory>
    ensures grows { OnOk result (Grows chains.old chains.new) }
    ensures there { OnOk result (HasChain config.now (OutputStands config.now zone.now) (host_to_zone config.now zone.now) (output_start ++ zone.now.name) chains.new) }
    ensures names { OnOk result (names_of chains.new ≡ names_of chains.old ++ (output_start ++ zone.now.name) ∷ []) }
    ensures leads { OnOk result (HasLeads config.now (IsOutputTarget config.now zone.now) (output_start ++ zone.now.name) chains.new) }
{
    let rules = output_rules(alloc, config, zone)?;
    let name = joined(alloc, "filter_OUTPUT_", &zone.name)?;
    push_chain(name, rules, chains)
}

fn push_outputs(
    alloc: Global,
    config: &Config,
    zones: &[&Zone],
    chains: &mut Seq<Chain>,
) -> Result<(), Memory>
    ensures grows { OnOk result (Grows chains.old chains.new) }
    ensures there { OnOk result ((zone : Zone) → IsIn zone (lent zones.now)
        → HasChain config.now (OutputStands config.now zone) (host_to_zone config.now zone) (output_start ++ zone.name) chains.new) }
    ensures names { OnOk result (names_of chains.new ≡ names_of chains.old ++ zone_names output_start (lent zones.now)) }
    ensures leads { OnOk result ((zone : Zone) → IsIn zone (lent zones.now) → HasLeads config.now (IsOutputTarget config.now zone) (output_start ++ zone.name) chains.new) }
{
    for zone in zones {
        push_output(alloc, config, zone, chains)?;
    }
    Ok(())
}

/// The chains for packets of the host: what all of them meet, and a chain for each of these zones, to which packets go that it gets.
///
/// Refuses for want of memory alone.
pub fn output_chains(alloc: Global, config: &Config, zones: &[&Zone]) -> Result<Seq<Chain>, Memory>
    ensures works { IfOk result (λ chains. OutputWorks config.now (lent zones.now) chains) }
    ensures names { IfOk result (λ chains. names_of chains ≡ codes "filter_OUTPUT" ∷ zone_names output_start (lent zones.now)) }
    ensures leads { IfOk result (λ chains. OutputLeads config.now (lent zones.now) chains) }
{
    let dispatched = dispatch(alloc, config, Direction::Egress, "filter_OUTPUT_")?;
    let rules = output_base(alloc, dispatched)?;
    let mut chains = one(
        alloc,
        base_chain(alloc, "filter_OUTPUT", Hook::Output, rules)?,
    )?;
    push_outputs(alloc, config, zones, &mut chains)?;
    Ok(chains)
}

/// Appends a chain for the packets that are forwarded from a zone to a zone.
fn push_pair(
    alloc: Global,
    config: &Config,
    from: &Zone,
    to: &Zone,
    chains: &mut Seq<Chain>,
) -> Result<(), Memory>
    ensures grows { OnOk result (Grows chains.old chains.new) }
    ensures there { OnOk result (HasChain config.now (ForwardStands config.now from.now to.now) (zone_to_zone config.now from.now to.now) (pair_start from.now.name ++ to.now.name) chains.new) }
    ensures names { OnOk result (names_of chains.new ≡ names_of chains.old ++ (pair_start from.now.name ++ to.now.name) ∷ []) }
    ensures leads { OnOk result (HasLeads config.now (IsForwardTarget config.now from.now to.now) (pair_start from.now.name ++ to.now.name) chains.new) }
{
    let rules = forward_rules(alloc, config, from, to)?;
    let start = pair_start(alloc, &from.name)?;
    let name = joined(alloc, start.as_str(), &to.name)?;
    push_chain(name, rules, chains)
}

fn push_pairs(
    alloc: Global,
    config: &Config,
    from: &Zone,
    zones: &[&Zone],
    chains: &mut Seq<Chain>,
) -> Result<(), Memory>
    ensures grows { OnOk result (Grows chains.old chains.new) }
    ensures there { OnOk result ((zone : Zone) → IsIn zone (lent zones.now)
        → HasChain config.now (ForwardStands config.now from.now zone) (zone_to_zone config.now from.now zone) (pair_start from.now.name ++ zone.name) chains.new) }
    ensures names { OnOk result (names_of chains.new ≡ names_of chains.old ++ zone_names (pair_start from.now.name) (lent zones.now)) }
    ensures leads { OnOk result ((zone : Zone) → IsIn zone (lent zones.now)
        → HasLeads config.now (IsForwardTarget config.now from.now zone) (pair_start from.now.name ++ zone.name) chains.new) }
{
    for zone in zones {
        push_pair(alloc, config, from, zone, chains)?;
    }
    Ok(())
}

/// Appends the chains for the packets that are forwarded from a zone.
fn push_forward(
    alloc: Global,
    config: &Config,
    from: &Zone,
    zones: &[&Zone],
    chains: &mut Seq<Chain>,
) -> Result<(), Memory>
    ensures grows { OnOk result (Grows chains.old chains.new) }
    ensures there { OnOk result (HasPairs config.now (lent zones.now) from.now chains.new) }
    ensures names { OnOk result (names_of chains.new ≡ names_of chains.old ++ from_names (lent zones.now) from.now) }
    ensures leads { OnOk result (PairsLead config.now (lent zones.now) from.now chains.new) }
{
    let start = pair_start(alloc, &from.name)?;
    let rules = dispatch(alloc, config, Direction::Egress, start.as_str())?;
    let name = joined(alloc, "filter_FORWARD_", &from.name)?;
    push_chain(name, rules, chains)?;
    push_pairs(alloc, config, from, zones, chains)?;
    Ok(())
}

fn push_forwards(
    alloc: Global,
    config: &Config,
    others: &[&Zone],
    zones: &[&Zone],
    chains: &mut Seq<Chain>,
) -> Result<(), Memory>
    ensures grows { OnOk result (Grows chains.old chains.new) }
    ensures there { OnOk result ((zone : Zone) → IsIn zone (lent zones.now) → HasPairs config.now (lent others.now) zone chains.new) }
    ensures names { OnOk result (names_of chains.new ≡ names_of chains.old ++ forward_names (lent others.now) (lent zones.now)) }
    ensures leads { OnOk result ((zone : Zone) → IsIn zone (lent zones.now) → PairsLead config.now (lent others.now) zone chains.new) }
{
    for zone in zones {
        push_forward(alloc, config, zone, others, chains)?;
    }
    Ok(())
}

/// The chains for packets that are forwarded: what all of them meet, a chain for each of these zones, to which packets go that come
/// from it, and behind it one for each of these zones, to which they go by the zone that gets them.
///
/// Refuses for want of memory alone.
pub fn forward_chains(alloc: Global, config: &Config, zones: &[&Zone]) -> Result<Seq<Chain>, Memory>
    ensures works { IfOk result (λ chains. ForwardWorks config.now (lent zones.now) chains) }
    ensures names { IfOk result (λ chains. names_of chains ≡ codes "filter_FORWARD" ∷ forward_names (lent zones.now) (lent zones.now)) }
    ensures leads { IfOk result (λ chains. ForwardLeads config.now (lent zones.now) chains) }
{
    let dispatched = dispatch(alloc, config, Direction::Ingress, "filter_FORWARD_")?;
    let rules = input_base(alloc, config, dispatched)?;
    let mut chains = one(
        alloc,
        base_chain(alloc, "filter_FORWARD", Hook::Forward, rules)?,
    )?;
    push_forwards(alloc, config, zones, zones, &mut chains)?;
    Ok(chains)
}
