//! What refuses a rule whose grammar is followed and whose values are read.
ghost use Rattle.std.specs.Prelude.{◌≡◌};
ghost use Rattle.fw_rich.specs.Refusals.{act_fits, acts_itself, aimless_forward, audits_a_verdict, does_one_thing, fits_together, foreign_address, foreign_name, foreign_side, foreign_target, foreign_type, has_address, has_number, has_verdict, is_address, is_foreign, is_forward, is_of, is_type_of, is_type_of_v4, is_type_of_v6, is_verdict, is_zero, lacks_family, lacks_number, may_be_for_all, rejects_fit, target_addr, target_place, without_target};
ghost use Rattle.std.specs.Option.{option_map};
ghost use Rattle.fw_addr.specs.Icmp.{icmp};

use super::parts::{ElementParts, ForwardParts, RuleParts, SideKey, SideParts};
use super::token::ValueText;
use fw_addr::{Addr, Family, IcmpNumbers, RejectType, icmp_numbers};
use fw_model::{Act, Action, Binding, Element, Rich, Side};

fn is_address(key: SideKey) -> bool
    ensures { result ≡ is_address key }
{
    match key {
        SideKey::Address => true,
        SideKey::Mac | SideKey::Ipset => false,
    }
}

fn has_address(parts: &Option<SideParts>) -> bool
    ensures { result ≡ has_address parts.now }
{
    match parts {
        Some(parts) => is_address(parts.name.key),
        None => false,
    }
}

fn is_forward(parts: &Option<ElementParts>) -> bool
    ensures { result ≡ is_forward parts.now }
{
    matches!(parts, Some(ElementParts::Forward(_)))
}

/// Whether an address of a source or a destination, or a forward port, stands without a family.
#[tactic(auto, unfolding(crate::specs::Refusals::lacks_family))]
pub fn lacks_family(parts: &RuleParts) -> bool
    ensures { result ≡ lacks_family parts.now }
{
    parts.family.is_none()
        && (has_address(&parts.source) || has_address(&parts.dest) || is_forward(&parts.element))
}

fn is_of(family: Family, addr: &Addr) -> bool
    ensures { result ≡ is_of family addr.now }
{
    match (family, addr) {
        (Family::V4, Addr::V4(_)) | (Family::V6, Addr::V6(_)) => true,
        (Family::V4, Addr::V6(_)) | (Family::V6, Addr::V4(_)) => false,
    }
}

fn is_foreign(family: Family, what: &Binding) -> bool
    ensures { result ≡ is_foreign family what.now }
{
    match what {
        Binding::Net(net) => !is_of(family, &net.addr()),
        Binding::Mac(_) | Binding::Set(_) => false,
    }
}

fn foreign_side(family: Family, parts: &Option<SideParts>, side: &Option<Side>) -> Option<usize>
    ensures { result ≡ foreign_side family parts.now side.now }
{
    let parts = parts.as_ref()?;
    let side = side.as_ref()?;
    if is_foreign(family, &side.what) {
        Some(parts.name.value.place)
    } else {
        None
    }
}

fn target_place(parts: &Option<ElementParts>) -> Option<usize>
    ensures { result ≡ target_place parts.now }
{
    match parts {
        Some(ElementParts::Forward(parts)) => place_of(&parts.to_addr),
        _ => None,
    }
}

fn place_of(value: &Option<ValueText>) -> Option<usize>
    ensures { result ≡ option_map (λ value. value.place) value.now }
{
    let value = value.as_ref()?;
    Some(value.place)
}

fn target_addr(element: &Option<Element>) -> Option<Addr>
    ensures { result ≡ target_addr element.now }
{
    match element {
        Some(Element::Forward(forward)) => forward.to_addr,
        _ => None,
    }
}

fn foreign_target(
    family: Family,
    parts: &Option<ElementParts>,
    element: &Option<Element>,
) -> Option<usize>
    ensures { result ≡ foreign_target family parts.now element.now }
{
    let place = target_place(parts)?;
    let addr = target_addr(element)?;
    if is_of(family, &addr) {
        None
    } else {
        Some(place)
    }
}

/// Where the first address stands that isn't of the rule's family.
#[tactic(auto, unfolding(crate::specs::Refusals::foreign_address))]
pub fn foreign_address(family: Family, parts: &RuleParts, rule: &Rich) -> Option<usize>
    ensures { result ≡ foreign_address family parts.now rule.now }
{
    if let Some(place) = foreign_side(family, &parts.source, &rule.source) {
        return Some(place);
    }
    if let Some(place) = foreign_side(family, &parts.dest, &rule.dest) {
        return Some(place);
    }
    foreign_target(family, &parts.element, &rule.element)
}

fn has_number(family: Family, numbers: IcmpNumbers) -> bool
    ensures { result ≡ has_number family numbers }
{
    match family {
        Family::V4 => numbers.v4.is_some(),
        Family::V6 => numbers.v6.is_some(),
    }
}

fn lacks_number(family: Family, name: &str) -> bool
    ensures { result ≡ lacks_number family (icmp name.now) }
{
    match icmp_numbers(name) {
        Some(numbers) => !has_number(family, numbers),
        None => false,
    }
}

fn foreign_name(family: Family, value: &ValueText) -> Option<usize>
    ensures { result ≡ foreign_name family value.now }
{
    if lacks_number(family, value.text) {
        Some(value.place)
    } else {
        None
    }
}

/// Where an ICMP type stands that the family hasn't.
#[tactic(auto, unfolding(crate::specs::Refusals::foreign_type))]
pub fn foreign_type(family: Family, parts: &Option<ElementParts>) -> Option<usize>
    ensures { result ≡ foreign_type family parts.now }
{
    match parts {
        Some(ElementParts::IcmpBlock(value) | ElementParts::IcmpType(value)) => {
            foreign_name(family, value)
        }
        _ => None,
    }
}

fn without_target(parts: &ForwardParts) -> Option<usize>
    ensures { result ≡ without_target parts.now }
{
    if parts.to_port.is_none() && parts.to_addr.is_none() {
        Some(parts.offset)
    } else {
        None
    }
}

/// Where a forward port stands that has neither a port nor an address to forward to.
#[tactic(auto, unfolding(crate::specs::Refusals::aimless_forward))]
pub fn aimless_forward(parts: &Option<ElementParts>) -> Option<usize>
    ensures { result ≡ aimless_forward parts.now }
{
    match parts {
        Some(ElementParts::Forward(parts)) => without_target(parts),
        _ => None,
    }
}

fn acts_itself(element: &Option<Element>) -> bool
    ensures { result ≡ acts_itself element.now }
{
    matches!(
        element,
        Some(Element::IcmpBlock(_) | Element::Masquerade | Element::Forward(_))
    )
}

#[tactic(auto, unfolding(crate::specs::Refusals::does_one_thing))]
fn does_one_thing(rule: &Rich) -> bool
    ensures { result ≡ does_one_thing rule.now }
{
    if acts_itself(&rule.element) {
        rule.action.is_none()
    } else {
        rule.action.is_some() || rule.log.is_some() || rule.audit.is_some()
    }
}

fn is_verdict(act: &Act) -> bool
    ensures { result ≡ is_verdict act.now }
{
    match act {
        Act::Accept | Act::Reject(_) | Act::Drop => true,
        Act::Mark(_, _) => false,
    }
}

fn has_verdict(action: &Option<Action>) -> bool
    ensures { result ≡ has_verdict action.now }
{
    match action {
        Some(action) => is_verdict(&action.act),
        None => false,
    }
}

#[tactic(auto, unfolding(crate::specs::Refusals::audits_a_verdict))]
fn audits_a_verdict(rule: &Rich) -> bool
    ensures { result ≡ audits_a_verdict rule.now }
{
    rule.audit.is_none() || has_verdict(&rule.action)
}

fn is_type_of_v4(kind: RejectType) -> bool
    ensures { result ≡ is_type_of_v4 kind }
{
    match kind {
        RejectType::IcmpNetUnreachable
        | RejectType::IcmpHostUnreachable
        | RejectType::IcmpPortUnreachable
        | RejectType::IcmpProtoUnreachable
        | RejectType::IcmpNetProhibited
        | RejectType::IcmpHostProhibited
        | RejectType::IcmpAdminProhibited
        | RejectType::TcpReset => true,
        RejectType::Icmp6NoRoute
        | RejectType::Icmp6AddrUnreachable
        | RejectType::Icmp6PortUnreachable
        | RejectType::Icmp6AdmProhibited
        | RejectType::IcmpxAdminProhibited
        | RejectType::IcmpxPortUnreachable => false,
    }
}

fn is_type_of_v6(kind: RejectType) -> bool
    ensures { result ≡ is_type_of_v6 kind }
{
    match kind {
        RejectType::Icmp6NoRoute
        | RejectType::Icmp6AddrUnreachable
        | RejectType::Icmp6PortUnreachable
        | RejectType::Icmp6AdmProhibited
        | RejectType::TcpReset => true,
        RejectType::IcmpNetUnreachable
        | RejectType::IcmpHostUnreachable
        | RejectType::IcmpPortUnreachable
        | RejectType::IcmpProtoUnreachable
        | RejectType::IcmpNetProhibited
        | RejectType::IcmpHostProhibited
        | RejectType::IcmpAdminProhibited
        | RejectType::IcmpxAdminProhibited
        | RejectType::IcmpxPortUnreachable => false,
    }
}

fn is_type_of(family: Option<Family>, kind: RejectType) -> bool
    ensures { result ≡ is_type_of family kind }
{
    match family {
        Some(Family::V4) => is_type_of_v4(kind),
        Some(Family::V6) => is_type_of_v6(kind),
        None => false,
    }
}

fn act_fits(family: Option<Family>, act: &Act) -> bool
    ensures { result ≡ act_fits family act.now }
{
    match act {
        Act::Reject(Some(kind)) => is_type_of(family, *kind),
        Act::Accept | Act::Reject(None) | Act::Drop | Act::Mark(_, _) => true,
    }
}

#[tactic(auto, unfolding(crate::specs::Refusals::rejects_fit))]
fn rejects_fit(family: Option<Family>, action: &Option<Action>) -> bool
    ensures { result ≡ rejects_fit family action.now }
{
    match action {
        Some(action) => act_fits(family, &action.act),
        None => true,
    }
}

/// Whether a priority is 0, as it is where none is given.
pub fn is_zero(priority: i32) -> bool
    ensures { result ≡ is_zero priority }
{
    priority == 0
}

#[tactic(auto, unfolding(crate::specs::Refusals::may_be_for_all))]
fn may_be_for_all(rule: &Rich) -> bool
    ensures { result ≡ may_be_for_all rule.now }
{
    rule.element.is_some()
        || rule.source.is_some()
        || rule.dest.is_some()
        || !is_zero(rule.priority)
}

/// Whether the parts of a rule go together.
pub fn fits_together(rule: &Rich) -> bool
    ensures { result ≡ fits_together rule.now }
{
    does_one_thing(rule)
        && audits_a_verdict(rule)
        && rejects_fit(rule.family, &rule.action)
        && may_be_for_all(rule)
}
