//! The chains of a zone.
ghost use Rattle.std.specs.Prelude.{◌≡◌, ◌<◌, Some, IfOk, length, slice_get};
ghost use Rattle.fw_model.specs.declared.zone.Zone.{Zone};
ghost use Rattle.fw_verdict.specs.Items.{items};
ghost use Rattle.fw_verdict.specs.Walk.{walk};
ghost use Rattle.lower_zone.specs.Evaluates.{Evaluates};
ghost use Rattle.lower_zone.specs.Names.{NamesDiffer, block_name, zone_block};
ghost use Rattle.lower_zone.specs.Stands.{StandAlone};

use crate::block::block_chains;
use crate::names::zone_block;
use fw_base::{Memory, Seq};
use fw_model::{Config, Runtime, Zone};
use nf_rules::Chain;
use std::alloc::Global;

/// The zone at a place.
fn zone_at(config: &Config, zone: usize) -> &Zone
    requires { zone < length config.now.zones }
    ensures { slice_get config.now.zones zone ≡ Some result.now }
{
    &config.zones.as_slice()[zone]
}

/// The chains of the zone at a place, for packets to the host: a jump to that of its block, `filter_IN_` and the zone's name, does with
/// a packet what the zone's settings do (firewalld.zone(5), firewalld.richlanguage(5)). It leads through a chain for each of
/// the five parts in which something stands; a rule with several alternatives that logs, and the inversion of ICMP types, have
/// chains of their own.
///
/// Refuses for want of memory alone.
pub fn zone_chains(alloc: Global, runtime: &Runtime, zone: usize) -> Result<Seq<Chain>, Memory>
    requires { zone < length runtime.now.config.zones }
    ensures evaluates { IfOk result (λ chains. (it : Zone) → slice_get runtime.now.config.zones zone ≡ Some it
        → Evaluates runtime.now.config chains (block_name (zone_block it.name)) (walk (items runtime.now.config it.rules it.inversion))) }
    ensures names { IfOk result (λ chains. (it : Zone) → slice_get runtime.now.config.zones zone ≡ Some it → NamesDiffer (zone_block it.name) chains) }
    ensures stands { IfOk result (λ chains. (it : Zone) → slice_get runtime.now.config.zones zone ≡ Some it
        → StandAlone runtime.now.config chains (block_name (zone_block it.name))) }
{
    let config = &runtime.config;
    let zone = zone_at(config, zone);
    let block = zone_block(alloc, &zone.name)?;
    block_chains(alloc, config, &block, &zone.rules, zone.inversion)
}
