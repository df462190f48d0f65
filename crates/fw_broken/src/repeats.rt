//! Lists that have nothing twice.
ghost use Rattle.std.specs.Prelude.{◌↔◌, IfOk, IfSome, IsTrue};
ghost use Rattle.fw_broken.specs.Once.{SetOnce};
ghost use Rattle.fw_valid.specs.Each.{Each, IsWithoutRepeats};
ghost use Rattle.fw_valid.specs.Valid.{HasNoRepeats};

use super::each::{Question, each, each_rules};
use fw_base::{Memory, Seq, TryCopy};
use fw_ipset::keep_once;
use fw_model::{Config, IpSet, Item, Policy, Rules, Service, Zone};
use fw_zone::{Same, contains};
use std::alloc::Global;

/// Whether no item stands in a list twice.
fn is_without_repeats<T: Same>(items: &[T]) -> bool
    ensures { IsTrue result ↔ IsWithoutRepeats items.now }
{
    for place in 0..items.len() {
        if contains(&items[place + 1..], &items[place]) {
            return false;
        }
    }
    true
}

/// No setting of a zone or a policy is there twice.
struct RulesOnce;

impl Question<Rules> for RulesOnce {
    ghost use Rattle.fw_valid.specs.Rules.{AreOnce};

    ghost asked = { λ config. AreOnce };

    fn is_so(_config: &Config, item: &Rules) -> bool {
        is_without_repeats(item.services.as_slice())
            && is_without_repeats(item.ports.as_slice())
            && is_without_repeats(item.protocols.as_slice())
            && is_without_repeats(item.source_ports.as_slice())
            && is_without_repeats(item.icmp_blocks.as_slice())
            && is_without_repeats(item.forwards.as_slice())
            && is_without_repeats(item.rich.as_slice())
    }
}

/// No binding of a zone is.
struct BindingsOnce;

impl Question<Zone> for BindingsOnce {
    ghost use Rattle.fw_broken.specs.Once.{ZoneOnce};

    ghost asked = { ZoneOnce };

    fn is_so(_config: &Config, item: &Zone) -> bool {
        is_without_repeats(item.interfaces.as_slice())
            && is_without_repeats(item.sources.as_slice())
    }
}

/// No zone of a policy is.
struct SidesOnce;

impl Question<Policy> for SidesOnce {
    ghost use Rattle.fw_broken.specs.Once.{PolicyOnce};

    ghost asked = { PolicyOnce };

    fn is_so(_config: &Config, item: &Policy) -> bool {
        is_without_repeats(item.ingress.as_slice()) && is_without_repeats(item.egress.as_slice())
    }
}

/// No part of a service is.
struct MembersOnce;

impl Question<Service> for MembersOnce {
    ghost use Rattle.fw_broken.specs.Once.{ServiceOnce};

    ghost asked = { ServiceOnce };

    fn is_so(_config: &Config, item: &Service) -> bool {
        is_without_repeats(item.includes.as_slice())
            && is_without_repeats(item.ports.as_slice())
            && is_without_repeats(item.protocols.as_slice())
            && is_without_repeats(item.source_ports.as_slice())
    }
}

/// No item of a set is.
struct ItemsOnce;

impl Question<IpSet> for ItemsOnce {
    ghost use Rattle.fw_broken.specs.Once.{SetOnce};

    ghost asked = { SetOnce };

    fn is_so(_config: &Config, item: &IpSet) -> bool {
        is_without_repeats(item.items.as_slice())
    }
}

/// Whether no item stands in a list twice, by a table of those that were seen.
fn are_items_once(alloc: Global, items: &Seq<Item>) -> Result<bool, Memory>
    ensures { IfOk result (λ once. IsTrue once ↔ IsWithoutRepeats items.now) }
{
    let kept = keep_once(alloc, items.copy(alloc)?.into_vec())?;
    Ok(kept.as_slice().len() == items.as_slice().len())
}

fn are_all_once(alloc: Global, sets: &[IpSet]) -> Result<bool, Memory>
    ensures { IfOk result (λ once. IsTrue once ↔ Each (λ set. IsWithoutRepeats set.items) sets.now) }
{
    for place in 0..sets.len() {
        if !are_items_once(alloc, &sets[place].items)? {
            return Ok(false);
        }
    }
    Ok(true)
}

/// Whether no item of a set is there twice. It takes memory, and no more time than in proportion to the items.
///
/// Refuses for want of memory alone.
pub fn find_sets_once(alloc: Global, config: &Config) -> Result<bool, Memory>
    ensures { IfOk result (λ once. IsTrue once ↔ Each (SetOnce config.now) config.now.ipsets) }
{
    are_all_once(alloc, config.ipsets.as_slice())
}

/// The same without memory, or what is known of it.
fn are_sets_once(config: &Config, known: Option<bool>) -> bool
    requires { IfSome known (λ once. IsTrue once ↔ Each (SetOnce config.now) config.now.ipsets) }
    ensures { IsTrue result ↔ Each (SetOnce config.now) config.now.ipsets }
{
    match known {
        Some(once) => once,
        None => each::<ItemsOnce, IpSet>(config, config.ipsets.as_slice()),
    }
}

/// Whether no list has an element twice. Of sets it may be known beforehand.
pub fn has_no_repeats(config: &Config, sets_once: Option<bool>) -> bool
    requires { IfSome sets_once (λ once. IsTrue once ↔ Each (SetOnce config.now) config.now.ipsets) }
    ensures { IsTrue result ↔ HasNoRepeats config.now }
{
    each_rules::<RulesOnce>(config)
        && each::<BindingsOnce, Zone>(config, config.zones.as_slice())
        && each::<SidesOnce, Policy>(config, config.policies.as_slice())
        && each::<MembersOnce, Service>(config, config.services.as_slice())
        && are_sets_once(config, sets_once)
}
