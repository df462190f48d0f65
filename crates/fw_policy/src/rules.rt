//! The rules on policies, in their order.
ghost use Rattle.std.specs.Prelude.{◌≡◌, ◌&&◌, not};
ghost use Rattle.std.specs.List.{list_all, list_any};
ghost use Rattle.fw_policy.specs.Faults.{action_marks, element_fits_egress, first_fault, fits_egress, forwards_fit, is_bad_priority, is_mark, is_masquerade, marks, masquerades, misplaced, policy_fault};
ghost use Rattle.fw_policy.specs.Sides.{is_only};
ghost use Rattle.fw_valid.specs.Names.{any, host};

use crate::fault::Fault;
use crate::sides::{ANY, HOST, first_unknown, is_only, stand_alone};
use fw_base::Text;
use fw_model::{Act, Action, Code, Element, Forward, Policy, Rich, Rules, Zone};

fn is_bad_priority(priority: i32) -> bool
    ensures { result ≡ is_bad_priority priority }
{
    priority == 0 || priority < -32_768 || 32_767 < priority
}

fn is_masquerade(element: &Option<Element>) -> bool
    ensures { result ≡ is_masquerade element.now }
{
    match element {
        Some(Element::Masquerade) => true,
        _ => false,
    }
}

fn any_masquerade(rules: &[Rich]) -> bool
    ensures { result ≡ list_any (λ rule. is_masquerade rule.element) rules.now }
{
    rules.iter().any(|rule| is_masquerade(&rule.element))
}

fn masquerades(rules: &Rules) -> bool
    ensures { result ≡ masquerades rules.now }
{
    rules.masquerade || any_masquerade(rules.rich.as_slice())
}

fn fits_egress(egress: &[Text], forward: &Forward) -> bool
    ensures { result ≡ fits_egress egress.now forward.now }
{
    if forward.to_addr.is_none() {
        is_only(HOST, egress)
    } else {
        is_only(ANY, egress)
    }
}

fn element_fits_egress(egress: &[Text], element: &Option<Element>) -> bool
    ensures { result ≡ element_fits_egress egress.now element.now }
{
    match element {
        Some(Element::Forward(forward)) => fits_egress(egress, forward),
        _ => true,
    }
}

fn plain_forwards_fit(egress: &[Text], forwards: &[Forward]) -> bool
    ensures { result ≡ list_all (fits_egress egress.now) forwards.now }
{
    forwards.iter().all(|forward| fits_egress(egress, forward))
}

fn rich_forwards_fit(egress: &[Text], rules: &[Rich]) -> bool
    ensures { result ≡ list_all (λ rule. element_fits_egress egress.now rule.element) rules.now }
{
    rules
        .iter()
        .all(|rule| element_fits_egress(egress, &rule.element))
}

fn forwards_fit(egress: &[Text], rules: &Rules) -> bool
    ensures { result ≡ forwards_fit egress.now rules.now }
{
    plain_forwards_fit(egress, rules.forwards.as_slice())
        && rich_forwards_fit(egress, rules.rich.as_slice())
}

fn is_mark(act: Act) -> bool
    ensures { result ≡ is_mark act }
{
    match act {
        Act::Mark(_, _) => true,
        _ => false,
    }
}

fn action_marks(action: &Option<Action>) -> bool
    ensures { result ≡ action_marks action.now }
{
    match action {
        Some(action) => is_mark(action.act),
        None => false,
    }
}

fn marks(rules: &[Rich]) -> bool
    ensures { result ≡ list_any (λ rule. action_marks rule.action) rules.now }
{
    rules.iter().any(|rule| action_marks(&rule.action))
}

/// The first rule on policies that a policy breaks, beside these zones.
///
/// In order: its priority isn't 0 and lies from -32768 to 32767; each name of its ingress zones and then of its egress zones is a
/// zone's, `HOST` or `ANY`; these two stand alone; it doesn't lead from the host to the host; it masquerades only from `ANY`
/// and not to `HOST`; a port is forwarded to the host itself only to `HOST`, to another only to `ANY`; packets are marked only
/// to `ANY`. A side may be empty.
pub fn first_fault(policy: &Policy, zones: &[Zone]) -> Option<Fault>
    ensures { result ≡ first_fault policy.now zones.now }
{
    let ingress = policy.ingress.as_slice();
    let egress = policy.egress.as_slice();
    if is_bad_priority(policy.priority) {
        return Some(Fault::Priority);
    }
    if let Some(place) = first_unknown(zones, ingress) {
        return Some(Fault::UnknownIngress(place));
    }
    if let Some(place) = first_unknown(zones, egress) {
        return Some(Fault::UnknownEgress(place));
    }
    if !(stand_alone(ingress) && stand_alone(egress)) {
        return Some(Fault::NotAlone);
    }
    if is_only(HOST, ingress) && is_only(HOST, egress) {
        return Some(Fault::HostToHost);
    }
    misplaced(ingress, egress, &policy.rules)
}

/// Whether a policy masquerades and may not between its sides.
fn masquerades_wrongly(ingress: &[Text], egress: &[Text], rules: &Rules) -> bool
    ensures { result ≡ (masquerades rules.now && not (is_only any ingress.now && not (is_only host egress.now))) }
{
    masquerades(rules) && !(is_only(ANY, ingress) && !is_only(HOST, egress))
}

/// Whether a policy marks packets and may not towards its egress.
fn marks_wrongly(egress: &[Text], rules: &Rules) -> bool
    ensures { result ≡ (marks rules.now && not (is_only any egress.now)) }
{
    marks(rules.rich.as_slice()) && !is_only(ANY, egress)
}

/// The first of the settings of a policy that can't stand between its sides.
fn misplaced(ingress: &[Text], egress: &[Text], rules: &Rules) -> Option<Fault>
    ensures { result ≡ misplaced ingress.now egress.now rules.now }
{
    if masquerades_wrongly(ingress, egress, rules) {
        Some(Fault::Masquerade)
    } else if !forwards_fit(egress, rules) {
        Some(Fault::Forward)
    } else if marks_wrongly(egress, rules) {
        Some(Fault::Mark)
    } else {
        None
    }
}

/// The code of the first rule on policies that a policy breaks, beside these zones: InvalidPriority for its priority, else
/// InvalidZone.
pub fn policy_fault(policy: &Policy, zones: &[Zone]) -> Option<Code>
    ensures { result ≡ policy_fault policy.now zones.now }
{
    match first_fault(policy, zones) {
        Some(fault) => Some(fault.code()),
        None => None,
    }
}
