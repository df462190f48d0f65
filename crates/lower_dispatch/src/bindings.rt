//! The rules that lead packets to their zones.
ghost use Rattle.std.specs.Prelude.{◌≡◌, ◌++◌, IfOk, OnOk};
ghost use Rattle.std.specs.Option.{option_copied};
ghost use Rattle.fw_hits.specs.Bindings.{default_zone};
ghost use Rattle.lower_dispatch.specs.Dispatch.{Dispatches};
ghost use Rattle.lower_dispatch.specs.Forms.{last_rules, zone_dispatch};
ghost use Rattle.lower_dispatch.specs.Uses.{LeadToZones};

use crate::direction::Direction;
use crate::interfaces::push_interfaces;
use crate::rules::goto_zone;
use crate::sources::push_sources;
use fw_base::{Memory, Seq};
use fw_model::{Config, Zone};
use lower_match::sources_are_told;
use nf_rules::Rule;
use std::alloc::Global;

fn default_zone(config: &Config) -> Option<&Zone>
    ensures { option_copied result ≡ default_zone config.now }
{
    let name = config.default_zone.as_str();
    config
        .zones
        .as_slice()
        .iter()
        .find(|zone| zone.name.as_str() == name)
}

fn push_last(
    alloc: Global,
    config: &Config,
    start: &str,
    rules: &mut Seq<Rule>,
) -> Result<(), Memory>
    ensures { OnOk result (rules.new ≡ rules.old ++ last_rules start.now (default_zone config.now)) }
{
    match default_zone(config) {
        Some(zone) => rules.push(goto_zone(alloc, start, zone, Seq::new(alloc))?),
        None => Ok(()),
    }
}

/// The rules in the order in which bindings decide: sources, then interfaces, then the default zone.
fn zone_dispatch(
    alloc: Global,
    config: &Config,
    direction: Direction,
    start: &str,
) -> Result<Seq<Rule>, Memory>
    ensures { IfOk result (λ rules. rules ≡ zone_dispatch direction config.now start.now) }
{
    let mut rules = Seq::new(alloc);
    push_sources(alloc, direction, config, start, &mut rules)?;
    push_interfaces(alloc, direction, config, start, &mut rules)?;
    push_last(alloc, config, start, &mut rules)?;
    Ok(rules)
}

/// Rules that lead a packet to the chain of the zone that it comes from, or that it goes to by the interface by which it leaves:
/// one for each source that can match, by zone name, one for each interface entry, exact ones and longer prefixes first, and one
/// for the default zone (firewalld.zones(5)). The chain of a zone is called `start` and the zone's name; only zones that
/// `is_in_use` tells need one. Ipsets are asked for by their names behind `ipset_`.
///
/// Refuses for want of memory alone.
pub fn dispatch(
    alloc: Global,
    config: &Config,
    direction: Direction,
    start: &str,
) -> Result<Seq<Rule>, Memory>
    ensures leads { IfOk result (Dispatches config.now direction start.now) }
    ensures stands { IfOk result (LeadToZones config.now start.now) }
{
    sources_are_told();
    zone_dispatch(alloc, config, direction, start)
}
