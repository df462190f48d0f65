//! The base chain of a side, and the chains of zones behind it.
ghost use Rattle.std.specs.Prelude.{◌≡◌, ◌++◌, ◌∷◌, [], IfOk, OnOk, map};
ghost use Rattle.fw_order.specs.Borrowed.{lent};
ghost use Rattle.lower_changes.specs.Chains.{IsHook, base_chain, base_of, direction_of, zone_chain};
ghost use Rattle.lower_changes.specs.Rules.{early};

use crate::names::{base_name, start, zone_name};
use crate::rules::{early, zone_rules};
use fw_base::{Memory, Seq, Text};
use fw_model::{Config, Zone};
use fw_verdict::Side;
use lower_dispatch::{Direction, dispatch};
use lower_zone::one;
use nf_rules::{Base, Chain, ChainKind, Hook, Rule};
use std::alloc::Global;

/// The priorities of the base chains among those of their hooks: marks and translations of the destination come before the filter, and
/// those of the source behind it.
const MARK_PRIORITY: i32 = -140;

const DESTINATION_PRIORITY: i32 = -90;

const SOURCE_PRIORITY: i32 = 110;

fn base_of(side: Side) -> Base
    ensures { result ≡ base_of side }
{
    match side {
        Side::Marked => Base {
            kind: ChainKind::Filter,
            hook: Hook::Prerouting,
            priority: MARK_PRIORITY,
        },
        Side::Translated => Base {
            kind: ChainKind::Nat,
            hook: Hook::Prerouting,
            priority: DESTINATION_PRIORITY,
        },
        Side::Leaving => Base {
            kind: ChainKind::Nat,
            hook: Hook::Postrouting,
            priority: SOURCE_PRIORITY,
        },
    }
}

fn direction_of(side: Side) -> Direction
    ensures { result ≡ direction_of side }
{
    match side {
        Side::Marked => Direction::Ingress,
        Side::Translated => Direction::Ingress,
        Side::Leaving => Direction::Egress,
    }
}

fn push_rules(more: Seq<Rule>, rules: &mut Seq<Rule>) -> Result<(), Memory>
    ensures { OnOk result (rules.new ≡ rules.old ++ more) }
{
    for rule in more.into_vec() {
        rules.push(rule)?;
    }
    Ok(())
}

/// The rules that all packets meet.
fn base_rules(alloc: Global, side: Side, dispatched: Seq<Rule>) -> Result<Seq<Rule>, Memory>
    ensures { IfOk result (λ rules. rules ≡ early side ++ dispatched) }
{
    let mut rules = early(alloc, side)?;
    push_rules(dispatched, &mut rules)?;
    Ok(rules)
}

fn base_chain(alloc: Global, side: Side, rules: Seq<Rule>) -> Result<Chain, Memory>
    ensures { IfOk result (λ chain. chain ≡ base_chain side rules) }
{
    Ok(Chain {
        name: Text::of(alloc, base_name(side))?,
        base: Some(base_of(side)),
        rules,
    })
}

/// Appends the chain of a zone.
fn push_zone(
    alloc: Global,
    config: &Config,
    side: Side,
    zone: &Zone,
    chains: &mut Seq<Chain>,
) -> Result<(), Memory>
    ensures { OnOk result (chains.new ≡ chains.old ++ zone_chain config.now side zone.now ∷ []) }
{
    let rules = zone_rules(alloc, config, side, zone)?;
    chains.push(Chain {
        name: zone_name(alloc, side, &zone.name)?,
        base: None,
        rules,
    })
}

fn push_zones(
    alloc: Global,
    config: &Config,
    side: Side,
    zones: &[&Zone],
    chains: &mut Seq<Chain>,
) -> Result<(), Memory>
    ensures { OnOk result (chains.new ≡ chains.old ++ map (zone_chain config.now side) (lent zones.now)) }
{
    for zone in zones {
        push_zone(alloc, config, side, zone, chains)?;
    }
    Ok(())
}

/// The base chain of a side, and a chain for each of these zones, to which packets go that come from it, or at postrouting go to it.
///
/// Refuses for want of memory alone.
pub fn hook_chains(
    alloc: Global,
    config: &Config,
    side: Side,
    zones: &[&Zone],
) -> Result<Seq<Chain>, Memory>
    ensures { IfOk result (λ chains. IsHook config.now side (lent zones.now) chains) }
{
    let dispatched = dispatch(alloc, config, direction_of(side), start(side))?;
    let rules = base_rules(alloc, side, dispatched)?;
    let mut chains = one(alloc, base_chain(alloc, side, rules)?)?;
    push_zones(alloc, config, side, zones, &mut chains)?;
    Ok(chains)
}
