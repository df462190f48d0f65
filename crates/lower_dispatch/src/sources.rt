//! The rules of sources.
ghost use Rattle.std.specs.Prelude.{◌≡◌, ◌++◌, IfOk, OnOk};
ghost use Rattle.fw_hits.specs.Bindings.{zone_order};
ghost use Rattle.std.specs.List.{flat_map};
ghost use Rattle.fw_order.specs.Borrowed.{lent};
ghost use Rattle.lower_dispatch.specs.Forms.{by_name, peer_test, rule_where, source_rules, zone_rules};

use crate::direction::Direction;
use crate::rules::goto_where;
use fw_base::{Memory, Seq};
use fw_model::{Binding, Config, IpSet, Zone};
use lower_match::{receiver_test, source_test};
use nf_rules::{Rule, Test};
use std::alloc::Global;
use std::cmp::Ordering;

/// Zones by their names, in byte order.
pub fn zone_order(one: &Zone, other: &Zone) -> Ordering
    ensures { result ≡ zone_order one.now other.now }
{
    one.name.as_str().cmp(&other.name.as_str())
}

fn all_zones(alloc: Global, zones: &[Zone]) -> Result<Vec<&Zone>, Memory>
    ensures { IfOk result (λ all. lent all.items ≡ zones.now) }
{
    let mut all = Vec::new(alloc);
    for zone in zones {
        all.push(zone)?;
    }
    Ok(all)
}

fn by_name(zones: Vec<&Zone>) -> Result<Vec<&Zone>, Memory>
    ensures { IfOk result (λ ordered. lent ordered.items ≡ by_name (lent zones.entry.items)) }
{
    let mut ordered = zones;
    ordered.sort_by(|one, other| zone_order(one, other))?;
    Ok(ordered)
}

/// The test of a source. None: it never holds.
fn peer_test(
    alloc: Global,
    direction: Direction,
    ipsets: &[IpSet],
    source: &Binding,
) -> Result<Option<Test>, Memory>
    ensures { IfOk result (λ asked. asked ≡ peer_test direction ipsets.now source.now) }
{
    match direction {
        Direction::Ingress => source_test(alloc, ipsets, source),
        Direction::Egress => receiver_test(alloc, ipsets, source),
    }
}

fn push_source(
    alloc: Global,
    direction: Direction,
    ipsets: &[IpSet],
    start: &str,
    zone: &Zone,
    source: &Binding,
    rules: &mut Seq<Rule>,
) -> Result<(), Memory>
    ensures { OnOk result (rules.new ≡ rules.old ++ rule_where start.now zone.now (peer_test direction ipsets.now source.now)) }
{
    match peer_test(alloc, direction, ipsets, source)? {
        Some(test) => rules.push(goto_where(alloc, start, zone, test)?),
        None => Ok(()),
    }
}

/// Appends a rule for each source of a zone that can match.
fn push_zone(
    alloc: Global,
    direction: Direction,
    ipsets: &[IpSet],
    start: &str,
    zone: &Zone,
    rules: &mut Seq<Rule>,
) -> Result<(), Memory>
    ensures { OnOk result (rules.new ≡ rules.old ++ zone_rules direction ipsets.now start.now zone.now) }
{
    for source in zone.sources.as_slice() {
        push_source(alloc, direction, ipsets, start, zone, source, rules)?;
    }
    Ok(())
}

fn push_zones(
    alloc: Global,
    direction: Direction,
    ipsets: &[IpSet],
    start: &str,
    zones: &[&Zone],
    rules: &mut Seq<Rule>,
) -> Result<(), Memory>
    ensures { OnOk result (rules.new ≡ rules.old ++ flat_map (zone_rules direction ipsets.now start.now) (lent zones.now)) }
{
    for zone in zones {
        push_zone(alloc, direction, ipsets, start, zone, rules)?;
    }
    Ok(())
}

/// Appends the rules of all sources: by zone name, and in a zone as they are listed, since these all lead to the one zone
/// (firewalld.zone(5), `source`).
///
/// Refuses for want of memory alone.
pub fn push_sources(
    alloc: Global,
    direction: Direction,
    config: &Config,
    start: &str,
    rules: &mut Seq<Rule>,
) -> Result<(), Memory>
    ensures { OnOk result (rules.new ≡ rules.old ++ source_rules direction config.now start.now) }
{
    let zones = by_name(all_zones(alloc, config.zones.as_slice())?)?;
    let ipsets = config.ipsets.as_slice();
    push_zones(alloc, direction, ipsets, start, zones.as_slice(), rules)
}
