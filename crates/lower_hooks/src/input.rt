//! What is done with packets to the host.
ghost use Rattle.std.specs.Prelude.{◌≡◌, ◌++◌, IfOk, OnOk};
ghost use Rattle.lower_hooks.specs.Listed.{icmp_first, input_end, input_rules, zone_jump};
ghost use Rattle.lower_hooks.specs.Rules.{icmp_rules};
ghost use Rattle.lower_hooks.specs.Settings.{has_walk};

use crate::names::zone_block_name;
use crate::policies::{has_settings, push_policies};
use crate::rules::{push_jump, push_where};
use crate::target::push_target;
use fw_addr::{ICMP, ICMPV6, Proto};
use fw_base::{Memory, Seq};
use fw_model::{Config, Verdict, Zone, ZoneTarget};
use fw_verdict::{End, Stage};
use nf_rules::{Rule, Test};
use std::alloc::Global;

/// Whether the walk of a zone's settings has anything in it.
pub fn has_walk(zone: &Zone) -> bool
    ensures { result ≡ has_walk zone.now }
{
    zone.inversion || has_settings(&zone.rules)
}

/// Appends a jump to the chain of a zone's settings, where it has any.
fn push_zone(alloc: Global, zone: &Zone, rules: &mut Seq<Rule>) -> Result<(), Memory>
    ensures { OnOk result (rules.new ≡ rules.old ++ zone_jump zone.now) }
{
    if has_walk(zone) {
        let name = zone_block_name(alloc, &zone.name)?;
        push_jump(alloc, name, rules)
    } else {
        Ok(())
    }
}

/// Appends what accepts ICMP.
fn push_icmp(alloc: Global, rules: &mut Seq<Rule>) -> Result<(), Memory>
    ensures { OnOk result (rules.new ≡ rules.old ++ icmp_rules) }
{
    push_where(alloc, Test::Proto(Proto(ICMP)), Verdict::Accept, rules)?;
    push_where(alloc, Test::Proto(Proto(ICMPV6)), Verdict::Accept, rules)
}

/// Appends what accepts ICMP before a target, as under `default`.
fn push_icmp_first(alloc: Global, target: ZoneTarget, rules: &mut Seq<Rule>) -> Result<(), Memory>
    ensures { OnOk result (rules.new ≡ rules.old ++ icmp_first target) }
{
    match target {
        ZoneTarget::Default => push_icmp(alloc, rules),
        _ => Ok(()),
    }
}

/// Appends what a zone does with what nothing else decided (firewalld.zone(5), `target`): under `default` ICMP is accepted, and all
/// others are rejected.
fn push_end(
    alloc: Global,
    config: &Config,
    zone: &Zone,
    rules: &mut Seq<Rule>,
) -> Result<(), Memory>
    ensures { OnOk result (rules.new ≡ rules.old ++ input_end config.now zone.now) }
{
    push_icmp_first(alloc, zone.target, rules)?;
    push_target(alloc, config, "filter_IN_", zone, rules)
}

/// The rules for the packets of a zone to the host: policies, the zone's settings, policies, and the zone's target.
pub fn input_rules(alloc: Global, config: &Config, zone: &Zone) -> Result<Seq<Rule>, Memory>
    ensures { IfOk result (λ rules. rules ≡ input_rules config.now zone.now) }
{
    let from = End::Zone(Some(zone));
    let mut rules = Seq::new(alloc);
    push_policies(
        alloc,
        config,
        Stage::BeforeZone,
        from,
        End::Host,
        &mut rules,
    )?;
    push_zone(alloc, zone, &mut rules)?;
    push_policies(
        alloc,
        config,
        Stage::BehindZone,
        from,
        End::Host,
        &mut rules,
    )?;
    push_end(alloc, config, zone, &mut rules)?;
    Ok(rules)
}
