//! Rich rules as the language has them (firewalld.richlanguage(5)).
ghost use Rattle.std.specs.Prelude.{◌≡◌, ◌≢◌, ◌↔◌, ℕ, ◌==◌, nat_le, not, ◌&&◌, IsNone, IsSome, IsTrue, pos};
ghost use Rattle.std.specs.List.{list_all};
ghost use Rattle.fw_addr.specs.Subnets.{family as family_of};
ghost use Rattle.fw_addr.specs.declared.packet.Family.TheVariants as families;
ghost use Rattle.fw_broken.specs.Rich.{ActMayStand, ActsAsItMay, ConditionsMayStand, LogMayStand};
ghost use Rattle.fw_valid.specs.Each.{IfThere};
ghost use Rattle.fw_valid.specs.Riches.{DoesSomething, HasTarget, HasType, IsAudited, IsLimit, IsNoMac, IsOfFamily, IsPriority, IsRich, IsVerdict, IsWhole, MayDo, MayHave, MayName, is_prefix, is_reject_of};

use fw_addr::{Addr, Family, Limit, RejectType, icmp_numbers};
use fw_model::{Act, Action, Binding, Element, Forward, Rich, RichLog, Side};

fn is_priority(priority: i32) -> bool
    ensures { IsTrue result ↔ IsPriority priority }
{
    -32_768 <= priority && priority <= 32_767
}

fn is_of_family(of: Option<Family>, address: Addr) -> bool
    ensures { IsTrue result ↔ IsOfFamily of address }
{
    of == Some(address.family())
}

fn may_name(of: Option<Family>, what: &Binding) -> bool
    ensures { IsTrue result ↔ MayName of what.now }
{
    match what {
        Binding::Net(net) => is_of_family(of, net.addr()),
        _ => true,
    }
}

fn is_no_mac(what: &Binding) -> bool
    ensures { IsTrue result ↔ IsNoMac what.now }
{
    match what {
        Binding::Mac(_) => false,
        _ => true,
    }
}

fn source_may_stand(rule: &Rich) -> bool
    ensures { IsTrue result ↔ IfThere (λ side. MayName rule.now.family side.what) rule.now.source }
{
    match &rule.source {
        Some(side) => may_name(rule.family, &side.what),
        None => true,
    }
}

fn destination_may_stand(rule: &Rich) -> bool
    ensures { IsTrue result ↔ IfThere (λ side. MayName rule.now.family side.what × IsNoMac side.what) rule.now.dest }
{
    match &rule.dest {
        Some(side) => may_name(rule.family, &side.what) && is_no_mac(&side.what),
        None => true,
    }
}

fn has_type(of: Option<Family>, name: &str) -> bool
    ensures { IsTrue result ↔ HasType of name.now }
{
    match (icmp_numbers(name), of) {
        (Some(numbers), Some(Family::V4)) => numbers.v4.is_some(),
        (Some(numbers), Some(Family::V6)) => numbers.v6.is_some(),
        (Some(_), None) => true,
        (None, _) => false,
    }
}

/// Whether a forward port has a target.
pub fn has_target(forward: &Forward) -> bool
    ensures { IsTrue result ↔ HasTarget forward.now }
{
    forward.to_port.is_some() || forward.to_addr.is_some()
}

fn may_forward(of: Option<Family>, forward: &Forward) -> bool
    ensures { IsTrue result ↔ (IsSome of × HasTarget forward.now × IfThere (IsOfFamily of) forward.now.to_addr) }
{
    let is_in_family = match forward.to_addr {
        Some(address) => is_of_family(of, address),
        None => true,
    };
    of.is_some() && has_target(forward) && is_in_family
}

fn may_have(of: Option<Family>, element: &Element) -> bool
    ensures { IsTrue result ↔ MayHave of element.now }
{
    match element {
        Element::IcmpBlock(name) => has_type(of, name.as_str()),
        Element::IcmpType(name) => has_type(of, name.as_str()),
        Element::Forward(forward) => may_forward(of, forward),
        _ => true,
    }
}

fn element_may_stand(rule: &Rich) -> bool
    ensures { IsTrue result ↔ IfThere (MayHave rule.now.family) rule.now.element }
{
    match &rule.element {
        Some(element) => may_have(rule.family, element),
        None => true,
    }
}

fn is_plain_byte(byte: u8) -> bool
    ensures { result ≡ (nat_le 32 byte && not (byte == 34) && not (byte == 127)) }
{
    32 <= byte && byte != b'"' && byte != 127
}

fn are_plain_bytes(text: &[u8]) -> bool
    ensures { result ≡ list_all (λ byte. nat_le 32 byte && not (byte == 34) && not (byte == 127)) text.now }
{
    text.iter().all(|byte| is_plain_byte(*byte))
}

fn is_prefix(text: &[u8]) -> bool
    ensures { result ≡ is_prefix text.now }
{
    text.len() <= 127 && are_plain_bytes(text)
}

fn prefix_may_stand(log: &Option<RichLog>) -> bool
    ensures { IsTrue result ↔ IfThere (λ log. IsTrue (is_prefix log.prefix)) log.now }
{
    match log {
        Some(log) => is_prefix(log.prefix.as_str().as_bytes()),
        None => true,
    }
}

fn is_limit(limit: &Option<Limit>) -> bool
    ensures { IsTrue result ↔ IfThere IsLimit limit.now }
{
    match limit {
        Some(limit) => 1 <= limit.count && limit.count <= 10_000,
        None => true,
    }
}

fn log_limit_may_stand(log: &Option<RichLog>) -> bool
    ensures { IsTrue result ↔ IfThere (λ log. IfThere IsLimit log.limit) log.now }
{
    match log {
        Some(log) => is_limit(&log.limit),
        None => true,
    }
}

fn audit_limit_may_stand(audit: &Option<Option<Limit>>) -> bool
    ensures { IsTrue result ↔ IfThere (IfThere IsLimit) audit.now }
{
    match audit {
        Some(limit) => is_limit(limit),
        None => true,
    }
}

fn action_limit_may_stand(action: &Option<Action>) -> bool
    ensures { IsTrue result ↔ IfThere (λ action. IfThere IsLimit action.limit) action.now }
{
    match action {
        Some(action) => is_limit(&action.limit),
        None => true,
    }
}

fn is_reject_of_v4(kind: RejectType) -> bool
    ensures { result ≡ is_reject_of families.V4 kind }
{
    match kind {
        RejectType::IcmpNetUnreachable
        | RejectType::IcmpHostUnreachable
        | RejectType::IcmpPortUnreachable
        | RejectType::IcmpProtoUnreachable
        | RejectType::IcmpNetProhibited
        | RejectType::IcmpHostProhibited
        | RejectType::IcmpAdminProhibited
        | RejectType::TcpReset => true,
        _ => false,
    }
}

fn is_reject_of_v6(kind: RejectType) -> bool
    ensures { result ≡ is_reject_of families.V6 kind }
{
    match kind {
        RejectType::Icmp6NoRoute
        | RejectType::Icmp6AddrUnreachable
        | RejectType::Icmp6PortUnreachable
        | RejectType::Icmp6AdmProhibited
        | RejectType::TcpReset => true,
        _ => false,
    }
}

fn may_do(of: Option<Family>, act: Act) -> bool
    ensures { IsTrue result ↔ MayDo of act }
{
    match (act, of) {
        (Act::Reject(Some(kind)), Some(Family::V4)) => is_reject_of_v4(kind),
        (Act::Reject(Some(kind)), Some(Family::V6)) => is_reject_of_v6(kind),
        (Act::Reject(Some(_)), None) => false,
        _ => true,
    }
}

fn action_may_stand(rule: &Rich) -> bool
    ensures { IsTrue result ↔ IfThere (λ action. MayDo rule.now.family action.act) rule.now.action }
{
    match &rule.action {
        Some(action) => may_do(rule.family, action.act),
        None => true,
    }
}

/// Whether an element does all by itself, so that no action stands beside it.
fn is_whole(element: &Option<Element>) -> bool
    ensures { IsTrue result ↔ IsWhole element.now }
{
    match element {
        Some(Element::IcmpBlock(_)) => true,
        Some(Element::Masquerade) => true,
        Some(Element::Forward(_)) => true,
        _ => false,
    }
}

fn does_something(rule: &Rich) -> bool
    ensures { IsTrue result ↔ DoesSomething rule.now }
{
    rule.action.is_some() || rule.log.is_some() || rule.audit.is_some()
}

/// An action stands where it has a place, and something is done with the rule's packets.
fn acts_as_it_may(rule: &Rich) -> bool
    ensures { IsTrue result ↔ ActsAsItMay rule.now }
{
    if is_whole(&rule.element) {
        rule.action.is_none()
    } else {
        does_something(rule)
    }
}

fn is_verdict(act: Act) -> bool
    ensures { IsTrue result ↔ IsVerdict act }
{
    match act {
        Act::Mark(_, _) => false,
        _ => true,
    }
}

fn is_audited(action: &Option<Action>) -> bool
    ensures { IsTrue result ↔ IsAudited action.now }
{
    match action {
        Some(action) => is_verdict(action.act),
        None => false,
    }
}

fn audit_has_verdict(rule: &Rich) -> bool
    ensures { IsTrue result ↔ (IsSome rule.now.audit → IsAudited rule.now.action) }
{
    rule.audit.is_none() || is_audited(&rule.action)
}

/// A rule for all packets has a place of its own among the rules.
fn has_place(rule: &Rich) -> bool
    ensures { IsTrue result ↔ (IsNone rule.now.element → IsNone rule.now.source → IsNone rule.now.dest → rule.now.priority ≢ pos 0) }
{
    let is_for_all = rule.element.is_none() && rule.source.is_none() && rule.dest.is_none();
    !is_for_all || rule.priority != 0
}

fn conditions_may_stand(rule: &Rich) -> bool
    ensures { IsTrue result ↔ ConditionsMayStand rule.now }
{
    is_priority(rule.priority)
        && source_may_stand(rule)
        && destination_may_stand(rule)
        && element_may_stand(rule)
}

fn log_may_stand(rule: &Rich) -> bool
    ensures { IsTrue result ↔ LogMayStand rule.now }
{
    prefix_may_stand(&rule.log)
        && log_limit_may_stand(&rule.log)
        && audit_limit_may_stand(&rule.audit)
}

fn act_may_stand(rule: &Rich) -> bool
    ensures { IsTrue result ↔ ActMayStand rule.now }
{
    action_limit_may_stand(&rule.action) && action_may_stand(rule) && acts_as_it_may(rule)
}

/// Whether a rule is as the language has it.
pub fn is_rich(rule: &Rich) -> bool
    ensures { IsTrue result ↔ IsRich rule.now }
{
    conditions_may_stand(rule)
        && log_may_stand(rule)
        && act_may_stand(rule)
        && audit_has_verdict(rule)
        && has_place(rule)
}
