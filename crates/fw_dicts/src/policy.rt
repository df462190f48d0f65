//! What a dict makes of a policy.
ghost use Rattle.std.specs.Prelude.{◌≡◌, [], get_or, Some, IfOk};
ghost use Rattle.std.specs.Fmt.{signed_decimal};
ghost use Rattle.fw_act.specs.Acts.{Reads};
ghost use Rattle.fw_dicts.specs.Policies.{allowed, fault_of, fault_subject, new_policy, policy_said, policy_told, unless_fault, with_settings};

use super::keys::require_known;
use super::lists::read_rules;
use super::shape::Owner;
use super::targets::read_policy_target;
use super::values::{number_at, number_or, read_names, read_notes, text_at};
use super::zone::{no_notes, no_rules};
use fw_act::{Stop, refuse};
use fw_base::{Memory, Seq, Text, TryCopy};
use fw_calls::{Dict, DictField};
use fw_model::{Config, Policy, PolicyTarget, Rules, Zone};
use fw_policy::{Fault, first_fault};
use std::alloc::Global;

/// The policy that a dict makes of a policy; an absent key leaves what there is, and repeated elements are kept once. Zones, services
/// and ipsets are those of the configuration.
///
/// Refuses the least unknown key; then by key order a target and an element of a list; then what breaks a rule on policies.
#[tactic(auto, unfolding(crate::specs::Policies::policy_told))]
pub fn read_policy(
    alloc: Global,
    config: &Config,
    policy: &Policy,
    dict: &Dict,
) -> Result<Policy, Stop>
    ensures { Reads result (policy_told config.now policy.now dict.now) }
{
    let said = read_said(alloc, config, policy, dict)?;
    allowed(alloc, config.zones.as_slice(), said)
}

/// The policy that a dict says, whether or not it keeps the rules on policies.
#[tactic(auto, unfolding(crate::specs::Policies::policy_said))]
fn read_said(alloc: Global, config: &Config, policy: &Policy, dict: &Dict) -> Result<Policy, Stop>
    ensures { Reads result (policy_said config.now policy.now dict.now) }
{
    let fields = dict.fields.as_slice();
    require_known(alloc, Owner::Policy, fields)?;
    let target = read_policy_target(alloc, text_at(fields, "target"), policy.target)?;
    let rules = read_rules(alloc, config, Owner::Policy, fields, &policy.rules)?;
    let told = with_settings(alloc, fields, policy, target, rules)?;
    Ok(told)
}

/// A policy with other settings.
#[tactic(auto, unfolding(crate::specs::Policies::with_settings))]
fn with_settings(
    alloc: Global,
    fields: &[(Text, DictField)],
    policy: &Policy,
    target: PolicyTarget,
    rules: Rules,
) -> Result<Policy, Memory>
    ensures { IfOk result (λ told. told ≡ with_settings fields.now policy.now target rules) }
{
    let notes = read_notes(alloc, fields, &policy.notes)?;
    let name = policy.name.copy(alloc)?;
    let ingress = read_names(alloc, fields, "ingress_zones", policy.ingress.as_slice())?;
    let egress = read_names(alloc, fields, "egress_zones", policy.egress.as_slice())?;
    Ok(Policy {
        name,
        notes,
        target,
        priority: number_or(number_at(fields, "priority"), policy.priority),
        ingress,
        egress,
        rules,
    })
}

/// A policy that keeps the rules on policies, beside these zones. Refuses its first fault: its priority and a zone that isn't known by
/// their texts, any other by the policy's name.
#[tactic(auto, unfolding(crate::specs::Policies::allowed))]
fn allowed(alloc: Global, zones: &[Zone], policy: Policy) -> Result<Policy, Stop>
    ensures { Reads result (allowed zones.now policy) }
{
    let fault = fault_of(zones, &policy);
    unless_fault(alloc, policy, fault)
}

/// The first of the rules on policies that a policy breaks, beside these zones.
#[tactic(auto, unfolding(crate::specs::Policies::fault_of))]
fn fault_of(zones: &[Zone], policy: &Policy) -> Option<Fault>
    ensures { result ≡ fault_of zones.now policy.now }
{
    first_fault(policy, zones)
}

fn unless_fault(alloc: Global, policy: Policy, fault: Option<Fault>) -> Result<Policy, Stop>
    ensures { Reads result (unless_fault policy fault) }
{
    match fault {
        Some(fault) => {
            let subject = fault_subject(alloc, &policy, fault)?;
            Err(Stop::Refused(refuse(alloc, fault.code(), subject.as_str())?))
        }
        None => Ok(policy),
    }
}

fn fault_subject(alloc: Global, policy: &Policy, fault: Fault) -> Result<Text, Memory>
    ensures { IfOk result (λ subject. subject ≡ fault_subject policy.now fault) }
{
    match fault {
        Fault::Priority => decimal_text(alloc, policy.priority),
        Fault::UnknownIngress(place) => name_at(alloc, policy.ingress.as_slice(), place),
        Fault::UnknownEgress(place) => name_at(alloc, policy.egress.as_slice(), place),
        Fault::NotAlone | Fault::HostToHost | Fault::Masquerade | Fault::Forward | Fault::Mark =>
            Text::of(alloc, policy.name.as_str()),
    }
}

fn decimal_text(alloc: Global, number: i32) -> Result<Text, Memory>
    ensures { IfOk result (λ text. text ≡ signed_decimal number) }
{
    Ok(Text::from_string(format!(in alloc; "{number}")?))
}

fn name_at(alloc: Global, names: &[Text], place: usize) -> Result<Text, Memory>
    ensures { IfOk result (λ name. name ≡ get_or names.now place []) }
{
    match names.get(place) {
        Some(name) => Text::of(alloc, name.as_str()),
        None => Text::of(alloc, ""),
    }
}

/// A policy before a dict says its settings: without any, with the target `CONTINUE` and the priority -1.
pub fn new_policy(alloc: Global, name: &str) -> Result<Policy, Memory>
    ensures { IfOk result (λ policy. policy ≡ new_policy name.now) }
{
    let name = Text::of(alloc, name)?;
    let notes = no_notes(alloc)?;
    Ok(Policy {
        name,
        notes,
        target: PolicyTarget::Continue,
        priority: -1,
        ingress: Seq::new(alloc),
        egress: Seq::new(alloc),
        rules: no_rules(alloc),
    })
}
