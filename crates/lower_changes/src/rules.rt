//! The rules of the chains of zones: jumps to the chains of settings.
ghost use Rattle.std.specs.Prelude.{◌≡◌, ◌++◌, ◌∷◌, [], IfOk, OnOk, codes};
ghost use Rattle.std.specs.List.{flat_map};
ghost use Rattle.fw_order.specs.Borrowed.{lent};
ghost use Rattle.fw_verdict.specs.declared.sides.Side.TheVariants.{Leaving};
ghost use Rattle.lower_changes.specs.Rules.{early, policy_jump, rules_at, zone_jump, zone_rules};

use fw_addr::{Iface, read_iface};
use fw_base::{Memory, Seq};
use fw_model::{Config, Policy, Zone};
use fw_verdict::{Side, Stage, policies_beside};
use lower_outside::{has_changes, policy_chain_name, zone_chain_name};
use lower_zone::{jump_to, one};
use nf_rules::{Match, Rule, Stmt, Test};
use std::alloc::Global;

/// Appends a jump to the chain of a zone's settings, where they do anything on the side.
fn push_zone(alloc: Global, side: Side, zone: &Zone, rules: &mut Seq<Rule>) -> Result<(), Memory>
    ensures { OnOk result (rules.new ≡ rules.old ++ zone_jump side zone.now) }
{
    if has_changes(side, &zone.rules) {
        let name = zone_chain_name(alloc, side, &zone.name)?;
        rules.push(jump_to(alloc, &name)?)
    } else {
        Ok(())
    }
}

/// Appends a jump to the chain of a policy's settings, where they do anything on the side.
fn push_policy(
    alloc: Global,
    side: Side,
    policy: &Policy,
    rules: &mut Seq<Rule>,
) -> Result<(), Memory>
    ensures { OnOk result (rules.new ≡ rules.old ++ policy_jump side policy.now) }
{
    if has_changes(side, &policy.rules) {
        let name = policy_chain_name(alloc, side, &policy.name)?;
        rules.push(jump_to(alloc, &name)?)
    } else {
        Ok(())
    }
}

fn push_all(
    alloc: Global,
    side: Side,
    policies: &[&Policy],
    rules: &mut Seq<Rule>,
) -> Result<(), Memory>
    ensures { OnOk result (rules.new ≡ rules.old ++ flat_map (policy_jump side) (lent policies.now)) }
{
    for policy in policies {
        push_policy(alloc, side, policy, rules)?;
    }
    Ok(())
}

/// Appends what the policies do that take part at a stage: by priority and then by name.
fn push_policies(
    alloc: Global,
    config: &Config,
    side: Side,
    stage: Stage,
    zone: &Zone,
    rules: &mut Seq<Rule>,
) -> Result<(), Memory>
    ensures { OnOk result (rules.new ≡ rules.old ++ rules_at config.now side stage zone.now) }
{
    let ordered = policies_beside(alloc, config, side, stage, Some(zone))?;
    push_all(alloc, side, ordered.as_slice(), rules)
}

/// The rules for the packets of a zone: policies, the zone's settings, policies.
pub fn zone_rules(
    alloc: Global,
    config: &Config,
    side: Side,
    zone: &Zone,
) -> Result<Seq<Rule>, Memory>
    ensures { IfOk result (λ rules. rules ≡ zone_rules config.now side zone.now) }
{
    let mut rules = Seq::new(alloc);
    push_policies(alloc, config, side, Stage::BeforeZone, zone, &mut rules)?;
    push_zone(alloc, side, zone, &mut rules)?;
    push_policies(alloc, config, side, Stage::BehindZone, zone, &mut rules)?;
    Ok(rules)
}

/// The loopback interface.
fn loopback() -> Iface
    ensures { result ≡ codes "lo" }
{
    read_iface("lo").unwrap()
}

/// What is accepted as it is that leaves by the loopback interface.
fn lo_rule(alloc: Global) -> Result<Rule, Memory>
    ensures { IfOk result (λ rule. rule ∷ [] ≡ early Leaving) }
{
    let test = Test::Out(loopback());
    Ok(Rule {
        matches: one(alloc, Match { not: false, test })?,
        stmts: one(alloc, Stmt::Accept)?,
    })
}

/// The rules before those that lead packets to the chains of their zones.
pub fn early(alloc: Global, side: Side) -> Result<Seq<Rule>, Memory>
    ensures { IfOk result (λ rules. rules ≡ early side) }
{
    match side {
        Side::Leaving => one(alloc, lo_rule(alloc)?),
        Side::Marked => Ok(Seq::new(alloc)),
        Side::Translated => Ok(Seq::new(alloc)),
    }
}
