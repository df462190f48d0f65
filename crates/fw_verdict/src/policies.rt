//! What policies do with packets (firewalld.policies(5), firewalld.policy(5)).
ghost use Rattle.std.specs.Prelude.{◌≡◌, map, IfOk};
ghost use Rattle.std.specs.List.{filter};
ghost use Rattle.fw_order.specs.Borrowed.{lent};
ghost use Rattle.fw_verdict.specs.Ends.{end_of};
ghost use Rattle.fw_verdict.specs.Given.{Walks};
ghost use Rattle.fw_verdict.specs.Policies.{acts_at, acts_between, applies, decided_by_target, names, policies, policies_at, policy_walk, stands_for, walk_all};

use crate::items::{REJECT, walk_rules};
use fw_addr::LogLine;
use fw_base::{Memory, Seq, Text};
use fw_model::{Config, Packet, Policy, PolicyTarget, Verdict, Zone};
use fw_order::by_priority_and_name;
use std::alloc::Global;

/// When policies act: those of negative priority before the zone, those of positive priority behind it.
#[derive(Clone, Copy)]
pub enum Stage {
    BeforeZone,
    BehindZone,
}

/// Where a packet comes from or goes to: the host, or a zone, which is none only where the default zone isn't there.
#[derive(Clone, Copy)]
pub enum End<'a> {
    Host,
    Zone(Option<&'a Zone>),
}

/// Whether a side of a policy has this name.
pub fn names(name: &str, side: &[Text]) -> bool
    ensures { result ≡ names name.now side.now }
{
    side.iter().any(|one| one.as_str() == name)
}

/// Whether a side of a policy stands for an end (firewalld.policies(5)): for a zone by its name or as `ANY`, for the host as `HOST`.
pub fn stands_for(side: &[Text], end: End<'_>) -> bool
    ensures { result ≡ stands_for side.now (end_of end.entry) }
{
    match end {
        End::Host => names("HOST", side),
        End::Zone(Some(zone)) => names(zone.name.as_str(), side) || names("ANY", side),
        End::Zone(None) => false,
    }
}

/// Whether a policy applies to packets from one end to another.
fn applies(policy: &Policy, from: End<'_>, to: End<'_>) -> bool
    ensures { result ≡ applies policy.now (end_of from.entry) (end_of to.entry) }
{
    stands_for(policy.ingress.as_slice(), from) && stands_for(policy.egress.as_slice(), to)
}

/// Whether a policy acts at a stage.
pub fn acts_at(stage: Stage, policy: &Policy) -> bool
    ensures { result ≡ acts_at stage policy.now }
{
    match stage {
        Stage::BeforeZone => policy.priority < 0,
        Stage::BehindZone => policy.priority > 0,
    }
}

/// Whether a policy acts at a stage on packets from one end to another.
#[tactic(auto, unfolding(crate::specs::Policies::acts_between))]
fn acts_between(policy: &Policy, stage: Stage, from: End<'_>, to: End<'_>) -> bool
    ensures { result ≡ acts_between stage (end_of from.entry) (end_of to.entry) policy.now }
{
    acts_at(stage, policy) && applies(policy, from, to)
}

/// The policies that act at a stage on packets from one end to another, as they are listed.
fn acting<'a>(
    alloc: Global,
    policies: &'a [Policy],
    stage: Stage,
    from: End<'_>,
    to: End<'_>,
) -> Result<Vec<&'a Policy>, Memory>
    ensures { IfOk result (λ found. lent found.items ≡ filter (acts_between stage (end_of from.entry) (end_of to.entry)) policies.now) }
{
    let mut found = Vec::new(alloc);
    for policy in policies {
        if acts_between(policy, stage, from, to) {
            found.push(policy)?;
        }
    }
    Ok(found)
}

/// What a policy's target decides (firewalld.policy(5), `target`), if anything.
pub fn decided_by_target(target: PolicyTarget) -> Option<Verdict>
    ensures { result ≡ decided_by_target target }
{
    match target {
        PolicyTarget::Continue => None,
        PolicyTarget::Accept => Some(Verdict::Accept),
        PolicyTarget::Reject => Some(REJECT),
        PolicyTarget::Drop => Some(Verdict::Drop),
    }
}

/// The policies that act at a stage on packets from one end to another: by priority and then by name.
///
/// Refuses for want of memory alone.
pub fn policies_at<'a>(
    alloc: Global,
    config: &'a Config,
    stage: Stage,
    from: End<'_>,
    to: End<'_>,
) -> Result<Vec<&'a Policy>, Memory>
    ensures { IfOk result (λ ordered. lent ordered.items ≡ policies_at config.now stage (end_of from.entry) (end_of to.entry)) }
{
    let found = acting(alloc, config.policies.as_slice(), stage, from, to)?;
    by_priority_and_name(found)
}

/// What a policy decides of a packet that it applies to, if anything: by its settings, and then by its target.
fn walk_policy(
    alloc: Global,
    config: &Config,
    policy: &Policy,
    packet: &Packet,
    logs: &mut Seq<LogLine>,
) -> Result<Option<Verdict>, Memory>
    ensures { IfOk result (λ decided. Walks (policy_walk config.now packet.now policy.now) logs.old logs.new decided) }
{
    let decided = walk_rules(alloc, config, &policy.rules, false, packet, logs)?;
    if decided.is_some() {
        return Ok(decided);
    }
    Ok(decided_by_target(policy.target))
}

fn walk_all(
    alloc: Global,
    config: &Config,
    policies: &[&Policy],
    packet: &Packet,
    logs: &mut Seq<LogLine>,
) -> Result<Option<Verdict>, Memory>
    ensures { IfOk result (λ decided. Walks (walk_all config.now packet.now (lent policies.now)) logs.old logs.new decided) }
{
    for policy in policies {
        let decided = walk_policy(alloc, config, policy, packet, logs)?;
        if decided.is_some() {
            return Ok(decided);
        }
    }
    Ok(None)
}

/// What the policies from one end to another decide of a packet at a stage, if anything: by priority and then by name, up to the
/// first that decides. The lines that they log come behind those that are there.
///
/// Refuses for want of memory alone.
pub fn walk_policies(
    alloc: Global,
    config: &Config,
    stage: Stage,
    from: End<'_>,
    to: End<'_>,
    packet: &Packet,
    logs: &mut Seq<LogLine>,
) -> Result<Option<Verdict>, Memory>
    ensures { IfOk result (λ decided. Walks (policies config.now stage packet.now (end_of from.entry) (end_of to.entry)) logs.old logs.new decided) }
{
    let ordered = policies_at(alloc, config, stage, from, to)?;
    walk_all(alloc, config, ordered.as_slice(), packet, logs)
}
