//! The chains of zones and policies.
ghost use Rattle.std.specs.Prelude.{IfOk};
ghost use Rattle.fw_valid.specs.Valid.{AreWritten};
ghost use Rattle.lower_outside.specs.Changing.{AreBlock};
ghost use Rattle.lower_outside.specs.Names.{NamesDiffer, policy_block, zone_block};

use crate::block::block_chains;
use crate::names::{policy_block, zone_block};
use crate::settings::side_steps;
use fw_base::{Memory, Seq, Text};
use fw_model::{Config, Policy, Rules, Zone};
use fw_verdict::Side;
use nf_rules::Chain;
use std::alloc::Global;

/// The chains of settings on a side, under the name of a block.
fn settings_chains(
    alloc: Global,
    config: &Config,
    side: Side,
    block: &Text,
    settings: &Rules,
) -> Result<Seq<Chain>, Memory>
    ensures { IfOk result (λ chains. AreWritten settings.now → AreBlock config.now side block.now settings.now chains) }
{
    let steps = side_steps(alloc, config, side, settings)?;
    block_chains(alloc, side, block, steps)
}

/// The chains of a zone on a side: a jump to that of its block does with a packet what the zone's settings mark, translate or have leave
/// with the host's own address (firewalld.zone(5), firewalld.richlanguage(5)). A step with several alternatives that doesn't end the base
/// chain has a chain of its own, so that a line is logged and a mark made once.
///
/// Refuses for want of memory alone.
pub fn zone_chains(
    alloc: Global,
    config: &Config,
    side: Side,
    zone: &Zone,
) -> Result<Seq<Chain>, Memory>
    ensures { IfOk result (λ chains. AreWritten zone.now.rules → AreBlock config.now side (zone_block side zone.now.name) zone.now.rules chains) }
{
    let block = zone_block(alloc, side, &zone.name)?;
    settings_chains(alloc, config, side, &block, &zone.rules)
}

/// The chains of a policy on a side, as those that a zone of the same settings has (firewalld.policy(5)).
///
/// Refuses for want of memory alone.
pub fn policy_chains(
    alloc: Global,
    config: &Config,
    side: Side,
    policy: &Policy,
) -> Result<Seq<Chain>, Memory>
    ensures { IfOk result (λ chains. AreWritten policy.now.rules → AreBlock config.now side (policy_block side policy.now.name) policy.now.rules chains) }
{
    let block = policy_block(alloc, side, &policy.name)?;
    settings_chains(alloc, config, side, &block, &policy.rules)
}
