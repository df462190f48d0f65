//! The chains of settings, one block behind another.
ghost use Rattle.std.specs.Prelude.{◌≡◌, ◌<◌, ◌++◌, Some, IfOk, OnOk, length, map, slice_get};
ghost use Rattle.std.specs.List.{filter};
ghost use Rattle.fw_model.specs.declared.policy.Policy.{Policy};
ghost use Rattle.fw_model.specs.declared.zone.Zone.{Zone};
ghost use Rattle.fw_order.specs.Borrowed.{lent};
ghost use Rattle.lower_blocks.specs.Blocks.{AreBlock, AreBlocks, Behind};
ghost use Rattle.lower_blocks.specs.Blocks.Told.{of_policy, of_zone};
ghost use Rattle.lower_blocks.specs.Needed.{all_told, is_needed, is_told};

use crate::needed::{is_needed, is_told};
use fw_base::{Memory, Seq};
use fw_model::{Policy, Runtime, Zone};
use lower_zone::{policy_chains, zone_chains};
use nf_rules::Chain;
use std::alloc::Global;

/// Appends some chains.
pub fn push_block(block: Seq<Chain>, chains: &mut Seq<Chain>) -> Result<(), Memory>
    ensures { OnOk result (chains.new ≡ chains.old ++ block) }
{
    for chain in block.into_vec() {
        chains.push(chain)?;
    }
    Ok(())
}

/// The chains of the settings of the zone at a place.
fn zone_block(alloc: Global, runtime: &Runtime, place: usize) -> Result<Seq<Chain>, Memory>
    requires { place < length runtime.now.config.zones }
    ensures { IfOk result (λ chains. (zone : Zone) → slice_get runtime.now.config.zones place ≡ Some zone → AreBlock runtime.now.config (of_zone zone) chains) }
{
    zone_chains(alloc, runtime, place)
}

/// The chains of the settings of the policy at a place.
fn policy_block(alloc: Global, runtime: &Runtime, place: usize) -> Result<Seq<Chain>, Memory>
    requires { place < length runtime.now.config.policies }
    ensures { IfOk result (λ chains. (policy : Policy) → slice_get runtime.now.config.policies place ≡ Some policy → AreBlock runtime.now.config (of_policy policy) chains) }
{
    policy_chains(alloc, runtime, place)
}

/// Appends the chains of the zones that packets may belong to and that have settings.
fn push_zones(alloc: Global, runtime: &Runtime, chains: &mut Seq<Chain>) -> Result<(), Memory>
    ensures { OnOk result (Behind runtime.now.config (map of_zone (filter (is_told runtime.now.config) runtime.now.config.zones)) chains.old chains.new) }
{
    let zones = runtime.config.zones.as_slice();
    for place in 0..zones.len() {
        if is_told(&runtime.config, &zones[place]) {
            push_block(zone_block(alloc, runtime, place)?, chains)?;
        }
    }
    Ok(())
}

/// Appends the chains of the policies that packets of these zones may meet and that have settings.
fn push_policies(
    alloc: Global,
    runtime: &Runtime,
    zones: &[&Zone],
    chains: &mut Seq<Chain>,
) -> Result<(), Memory>
    ensures { OnOk result (Behind runtime.now.config (map of_policy (filter (is_needed (lent zones.now)) runtime.now.config.policies)) chains.old chains.new) }
{
    let policies = runtime.config.policies.as_slice();
    for place in 0..policies.len() {
        if is_needed(&policies[place], zones) {
            push_block(policy_block(alloc, runtime, place)?, chains)?;
        }
    }
    Ok(())
}

/// The chains of the settings that packets of these zones may meet, zones before policies.
///
/// Refuses for want of memory alone.
pub fn settings_chains(
    alloc: Global,
    runtime: &Runtime,
    zones: &[&Zone],
) -> Result<Seq<Chain>, Memory>
    ensures { IfOk result (λ chains. AreBlocks runtime.now.config (all_told runtime.now.config (lent zones.now)) chains) }
{
    let mut chains = Seq::new(alloc);
    push_zones(alloc, runtime, &mut chains)?;
    push_policies(alloc, runtime, zones, &mut chains)?;
    Ok(chains)
}
