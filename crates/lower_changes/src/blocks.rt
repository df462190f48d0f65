//! The chains of settings on a side, one block behind another.
ghost use Rattle.std.specs.Prelude.{IfOk, OnOk};
ghost use Rattle.std.specs.List.{flat_map};
ghost use Rattle.fw_model.specs.declared.policy.Policy.{Policy};
ghost use Rattle.fw_model.specs.declared.zone.Zone.{Zone};
ghost use Rattle.fw_order.specs.Borrowed.{lent};
ghost use Rattle.fw_valid.specs.Each.{Each};
ghost use Rattle.fw_valid.specs.Valid.{AreWritten};
ghost use Rattle.lower_changes.specs.Blocks.{AreBlocks, Behind};
ghost use Rattle.lower_changes.specs.Needed.{needed, told_policy, told_zone};
ghost use Rattle.lower_changes.specs.Sides.{IsWritten};

use crate::needed::is_needed;
use fw_base::{Memory, Seq};
use fw_model::{Config, Policy, Zone};
use fw_verdict::Side;
use lower_blocks::push_block;
use lower_outside::{has_changes, policy_chains, zone_chains};
use nf_rules::Chain;
use std::alloc::Global;

/// Appends the chains of a zone's settings, where they do anything on the side.
fn push_zone(
    alloc: Global,
    config: &Config,
    side: Side,
    zone: &Zone,
    chains: &mut Seq<Chain>,
) -> Result<(), Memory>
    ensures { OnOk result (AreWritten zone.now.rules → Behind config.now side (told_zone side zone.now) chains.old chains.new) }
{
    if has_changes(side, &zone.rules) {
        push_block(zone_chains(alloc, config, side, zone)?, chains)
    } else {
        Ok(())
    }
}

fn push_zones(
    alloc: Global,
    config: &Config,
    side: Side,
    zones: &[&Zone],
    chains: &mut Seq<Chain>,
) -> Result<(), Memory>
    ensures { OnOk result (Each (λ (zone : Zone). AreWritten zone.rules) (lent zones.now)
        → Behind config.now side (flat_map (told_zone side) (lent zones.now)) chains.old chains.new) }
{
    for zone in zones {
        push_zone(alloc, config, side, zone, chains)?;
    }
    Ok(())
}

/// Appends the chains of a policy's settings, where packets of these zones meet them and they do anything on the side.
fn push_policy(
    alloc: Global,
    config: &Config,
    side: Side,
    zones: &[&Zone],
    policy: &Policy,
    chains: &mut Seq<Chain>,
) -> Result<(), Memory>
    ensures { OnOk result (AreWritten policy.now.rules → Behind config.now side (told_policy side (lent zones.now) policy.now) chains.old chains.new) }
{
    if is_needed(side, zones, policy) {
        push_block(policy_chains(alloc, config, side, policy)?, chains)
    } else {
        Ok(())
    }
}

fn push_policies(
    alloc: Global,
    config: &Config,
    side: Side,
    zones: &[&Zone],
    policies: &[Policy],
    chains: &mut Seq<Chain>,
) -> Result<(), Memory>
    ensures { OnOk result (Each (λ (policy : Policy). AreWritten policy.rules) policies.now
        → Behind config.now side (flat_map (told_policy side (lent zones.now)) policies.now) chains.old chains.new) }
{
    for policy in policies {
        push_policy(alloc, config, side, zones, policy, chains)?;
    }
    Ok(())
}

/// The chains of the settings that packets of these zones may meet and that do anything on a side, zones before policies.
///
/// Refuses for want of memory alone.
pub fn settings_chains(
    alloc: Global,
    config: &Config,
    side: Side,
    zones: &[&Zone],
) -> Result<Seq<Chain>, Memory>
    ensures { IfOk result (λ chains. IsWritten config.now (lent zones.now) → AreBlocks config.now side (needed config.now side (lent zones.now)) chains) }
{
    let mut chains = Seq::new(alloc);
    push_zones(alloc, config, side, zones, &mut chains)?;
    push_policies(
        alloc,
        config,
        side,
        zones,
        config.policies.as_slice(),
        &mut chains,
    )?;
    Ok(chains)
}
