//! The first rule that a configuration breaks.
ghost use Rattle.std.specs.Prelude.{◌≡◌, ◌↔◌, None, IfOk, IfSome, IsTrue};
ghost use Rattle.fw_broken.specs.Broken.{Holds, IsFirstAmong, IsFirstBroken};
ghost use Rattle.fw_broken.specs.Once.{SetOnce};
ghost use Rattle.fw_valid.specs.Each.{Each};
ghost use Rattle.fw_valid.specs.Valid.{IsInOneZone, IsValid};
ghost use Rattle.fw_valid.specs.Policies.{IsPolicy};
ghost use Rattle.fw_zone.specs.Bindings.{interfaces_of, sources_of, with_interfaces, with_sources};

use super::each::{Question, each};
use super::known::are_known;
use super::names::{are_named, has_default_zone};
use super::one_zone::is_in_one_zone;
use super::repeats::{find_sets_once, has_no_repeats};
use super::rule::Rule;
use super::sets::are_sets;
use super::written::are_written;
use fw_addr::Iface;
use fw_base::Memory;
use fw_model::{Binding, Config, Policy};
use fw_policy::{a_policy_without_faults_is_valid, first_fault};
use std::alloc::Global;

/// A policy stands between zones that there are, and does there what can be done there.
struct PolicyFaultless;

impl Question<Policy> for PolicyFaultless {
    ghost use Rattle.fw_valid.specs.Policies.{IsPolicy};

    ghost asked = { IsPolicy };

    fn is_so(config: &Config, item: &Policy) -> bool {
        a_policy_without_faults_is_valid();
        first_fault(item, config.zones.as_slice()).is_none()
    }
}

fn are_policies(config: &Config) -> bool
    ensures { IsTrue result ↔ Each (IsPolicy config.now) config.now.policies }
{
    each::<PolicyFaultless, Policy>(config, config.policies.as_slice())
}

fn are_interfaces_in_one_zone(config: &Config) -> bool
    ensures { IsTrue result ↔ IsInOneZone interfaces_of with_interfaces config.now.zones }
{
    is_in_one_zone::<Iface>(config.zones.as_slice())
}

fn are_sources_in_one_zone(config: &Config) -> bool
    ensures { IsTrue result ↔ IsInOneZone sources_of with_sources config.now.zones }
{
    is_in_one_zone::<Binding>(config.zones.as_slice())
}

/// Whether a configuration keeps a rule. That no item of a set is there twice may be known beforehand, or that one is.
fn keeps(config: &Config, rule: Rule, sets_once: Option<bool>) -> bool
    requires { IfSome sets_once (λ once. IsTrue once ↔ Each (SetOnce config.now) config.now.ipsets) }
    ensures { IsTrue result ↔ Holds config.now rule }
{
    match rule {
        Rule::Names => are_named(config),
        Rule::DefaultZone => has_default_zone(config),
        Rule::Interfaces => are_interfaces_in_one_zone(config),
        Rule::Sources => are_sources_in_one_zone(config),
        Rule::Ipsets => are_sets(config),
        Rule::Known => are_known(config),
        Rule::Policies => are_policies(config),
        Rule::Repeats => has_no_repeats(config, sets_once),
        Rule::Written => are_written(config),
    }
}

/// The first of some rules that a configuration breaks.
fn first_broken(config: &Config, rules: &[Rule], sets_once: Option<bool>) -> Option<Rule>
    requires { IfSome sets_once (λ once. IsTrue once ↔ Each (SetOnce config.now) config.now.ipsets) }
    ensures none { (result ≡ None) ↔ Each (Holds config.now) rules.now }
    ensures first { IfSome result (IsFirstAmong config.now rules.now) }
{
    for place in 0..rules.len() {
        if !keeps(config, rules[place], sets_once) {
            return Some(rules[place]);
        }
    }
    None
}

/// The first of all rules that a configuration breaks.
fn first_of_all(config: &Config, sets_once: Option<bool>) -> Option<Rule>
    requires { IfSome sets_once (λ once. IsTrue once ↔ Each (SetOnce config.now) config.now.ipsets) }
    ensures valid { (result ≡ None) ↔ IsValid config.now }
    ensures first { IfSome result (IsFirstBroken config.now) }
{
    first_broken(
        config,
        &[
            Rule::Names,
            Rule::DefaultZone,
            Rule::Interfaces,
            Rule::Sources,
            Rule::Ipsets,
            Rule::Known,
            Rule::Policies,
            Rule::Repeats,
            Rule::Written,
        ],
        sets_once,
    )
}

/// The first rule of a valid configuration that a configuration breaks, in the order of their numbers. There is none exactly where it is
/// valid. It takes no memory, and compares each item of a set with all others.
pub fn broken_rule(config: &Config) -> Option<Rule>
    ensures valid { (result ≡ None) ↔ IsValid config.now }
    ensures first { IfSome result (IsFirstBroken config.now) }
{
    first_of_all(config, None)
}

/// The same with memory for a table of a set's items, and no more time than in proportion to these.
///
/// Refuses for want of memory alone.
pub fn find_broken_rule(alloc: Global, config: &Config) -> Result<Option<Rule>, Memory>
    ensures valid { IfOk result (λ broken. (broken ≡ None) ↔ IsValid config.now) }
    ensures first { IfOk result (λ broken. IfSome broken (IsFirstBroken config.now)) }
{
    let sets_once = find_sets_once(alloc, config)?;
    Ok(first_of_all(config, Some(sets_once)))
}
