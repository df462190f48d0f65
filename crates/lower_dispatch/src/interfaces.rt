//! The rules of interfaces.
ghost use Rattle.std.specs.Prelude.{◌≡◌, ◌++◌, [], ◌∷◌, map, IfOk, OnOk};
ghost use Rattle.std.specs.List.{flat_map};
ghost use Rattle.std.specs.Option.{option_copied};
ghost use Rattle.fw_addr.specs.Interfaces.{before_plus};
ghost use Rattle.fw_hits.specs.Bindings.{entry_order, prefix_order};
ghost use Rattle.fw_order.specs.Order.{in_order};
ghost use Rattle.lower_dispatch.specs.Forms.{comes_first, entry_rule, interface_rules, link_test, zone_entries};
ghost use Rattle.lower_dispatch.specs.Sorting.{entry_of};

use crate::direction::Direction;
use crate::rules::goto_where;
use crate::sources::zone_order;
use fw_addr::Iface;
use fw_base::{Memory, Seq, TryCopy};
use fw_model::{Config, Zone};
use nf_rules::{Rule, Test};
use std::alloc::Global;
use std::cmp::Ordering;

/// An interface entry and the zone that it is bound to.
#[derive(Clone, Copy)]
pub struct Bound<'a> {
    pub zone: &'a Zone,
    pub iface: &'a Iface,
}

/// What is before the `+` of an entry that stands for many names.
fn before_plus(entry: &[u8]) -> Option<&[u8]>
    ensures { option_copied result ≡ before_plus entry.now }
{
    entry.strip_suffix(b"+")
}

/// An exact entry comes before those that stand for many names, and of these the one with the longer prefix first.
fn prefix_order(one: &Iface, other: &Iface) -> Ordering
    ensures { result ≡ prefix_order (before_plus one.now) (before_plus other.now) }
{
    let front = before_plus(one.as_str().as_bytes());
    match before_plus(other.as_str().as_bytes()) {
        None => match front {
            None => Ordering::Equal,
            Some(_) => Ordering::Greater,
        },
        Some(longer) => match front {
            None => Ordering::Less,
            Some(front) => longer.len().cmp(&front.len()),
        },
    }
}

fn entry_order(one: &Bound<'_>, other: &Bound<'_>) -> Ordering
    ensures { result ≡ entry_order (entry_of one.now) (entry_of other.now) }
{
    match prefix_order(one.iface, other.iface) {
        Ordering::Equal => zone_order(one.zone, other.zone),
        decided => decided,
    }
}

fn push_entries<'a>(zone: &'a Zone, entries: &mut Vec<Bound<'a>>) -> Result<(), Memory>
    ensures { OnOk result (map entry_of entries.new.items ≡ map entry_of entries.old.items ++ zone_entries zone.now) }
{
    for iface in zone.interfaces.as_slice() {
        entries.push(Bound { zone, iface })?;
    }
    Ok(())
}

/// The entries of all zones.
fn all_entries(alloc: Global, zones: &[Zone]) -> Result<Vec<Bound<'_>>, Memory>
    ensures { IfOk result (λ entries. map entry_of entries.items ≡ flat_map zone_entries zones.now) }
{
    let mut entries = Vec::new(alloc);
    for zone in zones {
        push_entries(zone, &mut entries)?;
    }
    Ok(entries)
}

/// Entries in the order in which they decide: by their prefixes, and then by the names of their zones.
fn in_order(entries: Vec<Bound<'_>>) -> Result<Vec<Bound<'_>>, Memory>
    ensures { IfOk result (λ ordered. map entry_of ordered.items ≡ in_order comes_first (map entry_of entries.entry.items)) }
{
    let mut ordered = entries;
    ordered.sort_by(|one, other| entry_order(one, other))?;
    Ok(ordered)
}

fn link_test(alloc: Global, direction: Direction, iface: &Iface) -> Result<Test, Memory>
    ensures { IfOk result (λ asked. asked ≡ link_test direction iface.now) }
{
    let iface = iface.copy(alloc)?;
    Ok(match direction {
        Direction::Ingress => Test::In(iface),
        Direction::Egress => Test::Out(iface),
    })
}

fn push_entry(
    alloc: Global,
    direction: Direction,
    start: &str,
    entry: &Bound<'_>,
    rules: &mut Seq<Rule>,
) -> Result<(), Memory>
    ensures { OnOk result (rules.new ≡ rules.old ++ entry_rule direction start.now (entry_of entry.now) ∷ []) }
{
    let test = link_test(alloc, direction, entry.iface)?;
    rules.push(goto_where(alloc, start, entry.zone, test)?)
}

fn push_each(
    alloc: Global,
    direction: Direction,
    start: &str,
    entries: &[Bound<'_>],
    rules: &mut Seq<Rule>,
) -> Result<(), Memory>
    ensures { OnOk result (rules.new ≡ rules.old ++ map (entry_rule direction start.now) (map entry_of entries.now)) }
{
    for entry in entries {
        push_entry(alloc, direction, start, entry, rules)?;
    }
    Ok(())
}

/// Appends the rules of all interfaces: exact names, then longer prefixes before shorter ones, then by zone name
/// (firewalld.zone(5), `interface`).
///
/// Refuses for want of memory alone.
pub fn push_interfaces(
    alloc: Global,
    direction: Direction,
    config: &Config,
    start: &str,
    rules: &mut Seq<Rule>,
) -> Result<(), Memory>
    ensures { OnOk result (rules.new ≡ rules.old ++ interface_rules direction config.now start.now) }
{
    let entries = in_order(all_entries(alloc, config.zones.as_slice())?)?;
    push_each(alloc, direction, start, entries.as_slice(), rules)
}
