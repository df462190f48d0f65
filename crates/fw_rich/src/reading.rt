//! What the values of a rule's parts say, in the order in which they stand.
ghost use Rattle.std.specs.Prelude.{◌≡◌, Ok, Err, MatchResult};
ghost use Rattle.std.specs.Option.{option_copied};
ghost use Rattle.fw_rich.specs.Values.{Says, act_of, action_of, audit_of, binding_by, both, element_of, first_bad, forward_of, level_said, limit_said, log_of, maybe, port_of, prefix_said, priority_of, reject_said, rule_of, side_of, target_of, to_addr_said, to_port_said};

use super::error::{BadValue, ValueError};
use super::parts::{
    ActParts, ActionParts, AuditParts, ElementParts, ForwardParts, LogParts, PortParts, RuleParts,
    SideKey, SideName, SideParts,
};
use super::token::ValueText;
use super::values::{
    icmp_said, ipset_said, level_said, limit_said, mac_said, mark_said, net_said, port_proto_said,
    ports_said, prefix_said, priority_said, proto_said, reject_said, service_said, to_addr_said,
    to_port_said,
};
use fw_addr::{Addr, Level, Limit, RejectType};
use fw_base::Text;
use fw_model::{Act, Action, Binding, Element, Forward, Port, Rich, RichLog, Side};
use std::alloc::Global;

/// What the values of a rule say. Bad: the first bad value in order of the text.
#[tactic(auto, unfolding(crate::specs::Values::rule_of))]
pub fn rule_of(alloc: Global, parts: &RuleParts) -> Result<Rich, ValueError>
    ensures { Says result (rule_of parts.now) }
{
    let priority = priority_of(&parts.priority)?;
    let source = optional_side(alloc, &parts.source)?;
    let dest = optional_side(alloc, &parts.dest)?;
    let element = optional_element(alloc, &parts.element)?;
    let log = optional_log(alloc, &parts.log)?;
    let audit = optional_audit(&parts.audit)?;
    let action = optional_action(&parts.action)?;
    Ok(Rich {
        priority,
        family: parts.family,
        source,
        dest,
        element,
        log,
        audit,
        action,
    })
}

/// Of two bad values the one that stands first.
fn first_bad(a: BadValue, b: BadValue) -> BadValue
    ensures { result ≡ first_bad a b }
{
    if b.place < a.place { b } else { a }
}

/// Two values of one part. Of two bad ones the first in the text refuses it.
fn both<X: Copy, Y: Copy>(
    x: Result<X, BadValue>,
    y: Result<Y, BadValue>,
) -> Result<(X, Y), BadValue>
    ensures { result ≡ both x y }
{
    match (x, y) {
        (Ok(x), Ok(y)) => Ok((x, y)),
        (Err(a), Err(b)) => Err(first_bad(a, b)),
        (Err(bad), _) | (_, Err(bad)) => Err(bad),
    }
}

#[tactic(auto, unfolding(crate::specs::Values::priority_of))]
fn priority_of(value: &Option<ValueText>) -> Result<i32, BadValue>
    ensures { result ≡ priority_of value.now }
{
    match value {
        Some(value) => priority_said(value),
        None => Ok(0),
    }
}

#[tactic(auto, unfolding(crate::specs::Values::binding_by))]
fn binding_of(alloc: Global, name: &SideName) -> Result<Binding, ValueError>
    ensures { Says result (binding_by name.now.key name.now.value) }
{
    match name.key {
        SideKey::Address => Ok(Binding::Net(net_said(&name.value)?)),
        SideKey::Mac => Ok(Binding::Mac(mac_said(&name.value)?)),
        SideKey::Ipset => {
            let set = ipset_said(&name.value)?;
            Ok(Binding::Set(Text::of(alloc, set)?))
        }
    }
}

#[tactic(auto, unfolding(crate::specs::Values::side_of))]
fn side_of(alloc: Global, parts: &SideParts) -> Result<Side, ValueError>
    ensures { Says result (side_of parts.now) }
{
    let what = binding_of(alloc, &parts.name)?;
    Ok(Side {
        not: parts.not,
        what,
    })
}

fn optional_side(alloc: Global, parts: &Option<SideParts>) -> Result<Option<Side>, ValueError>
    ensures { Says result (maybe side_of parts.now) }
{
    match parts {
        Some(parts) => Ok(Some(side_of(alloc, parts)?)),
        None => Ok(None),
    }
}

#[tactic(auto, unfolding(crate::specs::Values::port_of))]
fn port_of(parts: &PortParts) -> Result<Port, BadValue>
    ensures { result ≡ port_of parts.now }
{
    let (range, proto) = both(ports_said(&parts.port), port_proto_said(&parts.protocol))?;
    Ok(Port { range, proto })
}

fn optional_to_port(value: &Option<ValueText>) -> Result<Option<u16>, BadValue>
    ensures { result ≡ maybe to_port_said value.now }
{
    match value {
        Some(value) => Ok(Some(to_port_said(value)?)),
        None => Ok(None),
    }
}

fn optional_to_addr(value: &Option<ValueText>) -> Result<Option<Addr>, BadValue>
    ensures { result ≡ maybe to_addr_said value.now }
{
    match value {
        Some(value) => Ok(Some(to_addr_said(value)?)),
        None => Ok(None),
    }
}

#[tactic(auto, unfolding(crate::specs::Values::target_of))]
fn target_of(parts: &ForwardParts) -> Result<(Option<u16>, Option<Addr>), BadValue>
    ensures { result ≡ target_of parts.now }
{
    both(
        optional_to_port(&parts.to_port),
        optional_to_addr(&parts.to_addr),
    )
}

#[tactic(auto, unfolding(crate::specs::Values::forward_of))]
fn forward_of(parts: &ForwardParts) -> Result<Forward, BadValue>
    ensures { result ≡ forward_of parts.now }
{
    let (port, (to_port, to_addr)) = both(port_of(&parts.from), target_of(parts))?;
    Ok(Forward {
        port,
        to_port,
        to_addr,
    })
}

#[tactic(auto, unfolding(crate::specs::Values::element_of))]
fn element_of(alloc: Global, parts: &ElementParts) -> Result<Element, ValueError>
    ensures { Says result (element_of parts.now) }
{
    match parts {
        ElementParts::Service(value) => {
            let name = service_said(value)?;
            Ok(Element::Service(Text::of(alloc, name)?))
        }
        ElementParts::Port(parts) => Ok(Element::Port(port_of(parts)?)),
        ElementParts::Protocol(value) => Ok(Element::Protocol(proto_said(value)?)),
        ElementParts::IcmpBlock(value) => {
            let name = icmp_said(value)?;
            Ok(Element::IcmpBlock(Text::of(alloc, name)?))
        }
        ElementParts::IcmpType(value) => {
            let name = icmp_said(value)?;
            Ok(Element::IcmpType(Text::of(alloc, name)?))
        }
        ElementParts::Masquerade => Ok(Element::Masquerade),
        ElementParts::SourcePort(parts) => Ok(Element::SourcePort(port_of(parts)?)),
        ElementParts::Forward(parts) => Ok(Element::Forward(forward_of(parts)?)),
    }
}

fn optional_element(
    alloc: Global,
    parts: &Option<ElementParts>,
) -> Result<Option<Element>, ValueError>
    ensures { Says result (maybe element_of parts.now) }
{
    match parts {
        Some(parts) => Ok(Some(element_of(alloc, parts)?)),
        None => Ok(None),
    }
}

fn optional_limit(value: &Option<ValueText>) -> Result<Option<Limit>, BadValue>
    ensures { result ≡ maybe limit_said value.now }
{
    match value {
        Some(value) => Ok(Some(limit_said(value)?)),
        None => Ok(None),
    }
}

fn optional_prefix<'a>(value: &Option<ValueText<'a>>) -> Result<Option<&'a str>, BadValue>
    ensures { MatchResult result (λ text. maybe prefix_said value.now ≡ Ok (option_copied text)) (λ bad. maybe prefix_said value.now ≡ Err bad) }
{
    match value {
        Some(value) => Ok(Some(prefix_said(value)?)),
        None => Ok(None),
    }
}

fn optional_level(value: &Option<ValueText>) -> Result<Option<Level>, BadValue>
    ensures { result ≡ maybe level_said value.now }
{
    match value {
        Some(value) => Ok(Some(level_said(value)?)),
        None => Ok(None),
    }
}

#[tactic(auto, unfolding(crate::specs::Values::log_of))]
fn log_of(alloc: Global, parts: &LogParts) -> Result<RichLog, ValueError>
    ensures { Says result (log_of parts.now) }
{
    let (prefix, level) = both(optional_prefix(&parts.prefix), optional_level(&parts.level))?;
    let limit = optional_limit(&parts.limit)?;
    let prefix = Text::of(alloc, prefix.unwrap_or(""))?;
    Ok(RichLog {
        prefix,
        level: level.unwrap_or(Level::Warning),
        limit,
    })
}

fn optional_log(alloc: Global, parts: &Option<LogParts>) -> Result<Option<RichLog>, ValueError>
    ensures { Says result (maybe log_of parts.now) }
{
    match parts {
        Some(parts) => Ok(Some(log_of(alloc, parts)?)),
        None => Ok(None),
    }
}

#[tactic(auto, unfolding(crate::specs::Values::audit_of))]
fn optional_audit(parts: &Option<AuditParts>) -> Result<Option<Option<Limit>>, BadValue>
    ensures { result ≡ maybe audit_of parts.now }
{
    match parts {
        Some(parts) => Ok(Some(optional_limit(&parts.limit)?)),
        None => Ok(None),
    }
}

fn optional_reject(value: &Option<ValueText>) -> Result<Option<RejectType>, BadValue>
    ensures { result ≡ maybe reject_said value.now }
{
    match value {
        Some(value) => Ok(Some(reject_said(value)?)),
        None => Ok(None),
    }
}

#[tactic(auto, unfolding(crate::specs::Values::act_of))]
fn act_of(parts: &ActParts) -> Result<Act, BadValue>
    ensures { result ≡ act_of parts.now }
{
    match parts {
        ActParts::Accept => Ok(Act::Accept),
        ActParts::Reject(kind) => Ok(Act::Reject(optional_reject(kind)?)),
        ActParts::Drop => Ok(Act::Drop),
        ActParts::Mark(value) => {
            let bits = mark_said(value)?;
            Ok(Act::Mark(bits.value, bits.mask))
        }
    }
}

#[tactic(auto, unfolding(crate::specs::Values::action_of))]
fn action_of(parts: &ActionParts) -> Result<Action, BadValue>
    ensures { result ≡ action_of parts.now }
{
    let act = act_of(&parts.act)?;
    let limit = optional_limit(&parts.limit)?;
    Ok(Action { act, limit })
}

fn optional_action(parts: &Option<ActionParts>) -> Result<Option<Action>, BadValue>
    ensures { result ≡ maybe action_of parts.now }
{
    match parts {
        Some(parts) => Ok(Some(action_of(parts)?)),
        None => Ok(None),
    }
}
