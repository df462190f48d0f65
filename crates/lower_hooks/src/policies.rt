//! Policies in turn.
ghost use Rattle.std.specs.Prelude.{◌≡◌, ◌++◌, OnOk};
ghost use Rattle.std.specs.List.{flat_map};
ghost use Rattle.fw_order.specs.Borrowed.{lent};
ghost use Rattle.fw_verdict.specs.Ends.{end_of};
ghost use Rattle.fw_verdict.specs.Policies.{decided_by_target};
ghost use Rattle.lower_hooks.specs.Listed.{decided_rules, policy_jump, policy_rules, rules_at};
ghost use Rattle.lower_hooks.specs.Settings.{has_settings};

use crate::names::policy_block_name;
use crate::rules::{push_always, push_jump};
use fw_base::{Memory, Seq};
use fw_model::{Config, Policy, PolicyTarget, Rules};
use fw_verdict::{End, Stage, decided_by_target, policies_at};
use nf_rules::Rule;
use std::alloc::Global;

/// Whether settings have anything that may stand in the filter.
pub fn has_settings(settings: &Rules) -> bool
    ensures { result ≡ has_settings settings.now }
{
    !settings.services.as_slice().is_empty()
        || !settings.ports.as_slice().is_empty()
        || !settings.protocols.as_slice().is_empty()
        || !settings.source_ports.as_slice().is_empty()
        || !settings.icmp_blocks.as_slice().is_empty()
        || !settings.rich.as_slice().is_empty()
}

/// Appends a jump to the chain of a policy's settings, where it has any.
fn push_settings(alloc: Global, policy: &Policy, rules: &mut Seq<Rule>) -> Result<(), Memory>
    ensures { OnOk result (rules.new ≡ rules.old ++ policy_jump policy.now) }
{
    if has_settings(&policy.rules) {
        let name = policy_block_name(alloc, &policy.name)?;
        push_jump(alloc, name, rules)
    } else {
        Ok(())
    }
}

/// Appends what a policy's target does, if anything.
fn push_target(alloc: Global, target: PolicyTarget, rules: &mut Seq<Rule>) -> Result<(), Memory>
    ensures { OnOk result (rules.new ≡ rules.old ++ decided_rules (decided_by_target target)) }
{
    match decided_by_target(target) {
        Some(verdict) => push_always(alloc, verdict, rules),
        None => Ok(()),
    }
}

/// Appends what a policy does: the chain of its settings, where it has any, and then its target.
fn push_policy(alloc: Global, policy: &Policy, rules: &mut Seq<Rule>) -> Result<(), Memory>
    ensures { OnOk result (rules.new ≡ rules.old ++ policy_rules policy.now) }
{
    push_settings(alloc, policy, rules)?;
    push_target(alloc, policy.target, rules)
}

/// Appends what policies do, one after another.
fn push_all(alloc: Global, policies: &[&Policy], rules: &mut Seq<Rule>) -> Result<(), Memory>
    ensures { OnOk result (rules.new ≡ rules.old ++ flat_map policy_rules (lent policies.now)) }
{
    for policy in policies {
        push_policy(alloc, policy, rules)?;
    }
    Ok(())
}

/// Appends what the policies do from one end to another, at a stage: by priority and then by name.
pub fn push_policies(
    alloc: Global,
    config: &Config,
    stage: Stage,
    from: End<'_>,
    to: End<'_>,
    rules: &mut Seq<Rule>,
) -> Result<(), Memory>
    ensures { OnOk result (rules.new ≡ rules.old ++ rules_at config.now stage (end_of from.entry) (end_of to.entry)) }
{
    let ordered = policies_at(alloc, config, stage, from, to)?;
    push_all(alloc, ordered.as_slice(), rules)
}
