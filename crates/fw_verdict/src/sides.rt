//! The side of a packet's way that a step outside the filter looks at, and the settings that have it.
ghost use Rattle.std.specs.Prelude.{◌≡◌, ◌++◌, IfOk};
ghost use Rattle.std.specs.List.{filter};
ghost use Rattle.std.specs.Option.{option_copied};
ghost use Rattle.fw_order.specs.Borrowed.{lent};
ghost use Rattle.fw_verdict.specs.Led.{policy_settings, settings_given};
ghost use Rattle.fw_verdict.specs.Sides.{is_beside, policies_beside};

use crate::policies::{End, Stage, acts_at, names, stands_for};
use fw_base::Memory;
use fw_model::{Config, Policy, Rules, Zone};
use fw_order::by_priority_and_name;
use std::alloc::Global;

/// The steps outside the filter, each with the side of a packet's way by which policies take part in it.
#[derive(Clone, Copy)]
pub enum Side {
    /// Marks: policies from where the packet comes, to any zone.
    Marked,
    /// Translation of the destination: policies from where the packet comes.
    Translated,
    /// Postrouting: policies to where the packet goes.
    Leaving,
}

/// Whether a policy takes part in a step at a stage, for packets on a zone's side.
#[tactic(auto, unfolding(crate::specs::Sides::is_beside))]
fn is_beside(policy: &Policy, side: Side, stage: Stage, zone: Option<&Zone>) -> bool
    ensures { result ≡ is_beside side stage (option_copied zone.entry) policy.now }
{
    match side {
        Side::Marked => {
            acts_at(stage, policy)
                && stands_for(policy.ingress.as_slice(), End::Zone(zone))
                && names("ANY", policy.egress.as_slice())
        }
        Side::Translated => {
            acts_at(stage, policy) && stands_for(policy.ingress.as_slice(), End::Zone(zone))
        }
        Side::Leaving => {
            acts_at(stage, policy) && stands_for(policy.egress.as_slice(), End::Zone(zone))
        }
    }
}

/// The policies that take part in a step at a stage, as they are listed.
fn beside<'a>(
    alloc: Global,
    policies: &'a [Policy],
    side: Side,
    stage: Stage,
    zone: Option<&Zone>,
) -> Result<Vec<&'a Policy>, Memory>
    ensures { IfOk result (λ found. lent found.items ≡ filter (is_beside side stage (option_copied zone.entry)) policies.now) }
{
    let mut found = Vec::new(alloc);
    for policy in policies {
        if is_beside(policy, side, stage, zone) {
            found.push(policy)?;
        }
    }
    Ok(found)
}

/// The policies that take part in a step at a stage, for packets on a zone's side: by priority and then by name.
///
/// Refuses for want of memory alone.
pub fn policies_beside<'a>(
    alloc: Global,
    config: &'a Config,
    side: Side,
    stage: Stage,
    zone: Option<&Zone>,
) -> Result<Vec<&'a Policy>, Memory>
    ensures { IfOk result (λ ordered. lent ordered.items ≡ policies_beside config.now side stage (option_copied zone.entry)) }
{
    let found = beside(alloc, config.policies.as_slice(), side, stage, zone)?;
    by_priority_and_name(found)
}

fn push_settings<'a>(policies: &[&'a Policy], settings: &mut Vec<&'a Rules>) -> Result<(), Memory>
    ensures { IfOk result (λ _. lent settings.new.items ≡ lent settings.old.items ++ policy_settings (lent policies.now)) }
{
    for policy in policies {
        let policy: &Policy = *policy;
        settings.push(&policy.rules)?;
    }
    Ok(())
}

/// The settings that take part in a step, for packets on a zone's side: those of the policies before the zone, of the zone, and of
/// the policies behind it.
///
/// Refuses for want of memory alone.
pub fn settings_beside<'a>(
    alloc: Global,
    config: &'a Config,
    side: Side,
    zone: Option<&'a Zone>,
) -> Result<Vec<&'a Rules>, Memory>
    ensures { IfOk result (λ settings. lent settings.items ≡ settings_given config.now side (option_copied zone.entry)) }
{
    let mut settings = Vec::new(alloc);
    let before = policies_beside(alloc, config, side, Stage::BeforeZone, zone)?;
    push_settings(before.as_slice(), &mut settings)?;
    if let Some(zone) = zone {
        settings.push(&zone.rules)?;
    }
    let behind = policies_beside(alloc, config, side, Stage::BehindZone, zone)?;
    push_settings(behind.as_slice(), &mut settings)?;
    Ok(settings)
}
