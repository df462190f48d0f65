//! The canonical text of a rich rule. Each function appends one part.
ghost use Rattle.std.specs.Prelude.{◌≡◌, ◌++◌, IfOk, OnOk, string_bytes};
ghost use Rattle.fw_rich.specs.Canonical.{act_text, action_text, audit_text, binding_text, canon, element_text, family_part, forward_text, is_warning, level_part, limit_text, log_text, mask_text, not_text, port_text, prefix_text, priority_text, side_text, to_addr_text, to_port_text};

use super::refusals::is_zero;
use fw_addr::{Addr, Family, Level, Limit};
use fw_base::{Memory, Text};
use fw_model::{Act, Action, Binding, Element, Forward, Port, Rich, RichLog, Side};
use std::alloc::Global;
use std::fmt;

/// The canonical text of a rule: its parts in the order of the grammar, one blank between tokens, all values in double
/// quotes, the priority only if it isn't 0, `NOT` in capitals, a prefix only if it isn't empty, a level only if it isn't
/// warning, a mark in hexadecimal, and its mask only if it isn't all ones.
///
/// Refuses for want of memory alone.
pub fn print_rich(alloc: Global, rule: &Rich) -> Result<Text, Memory>
    ensures { IfOk result (λ text. text ≡ canon rule.now) }
{
    let mut text = String::new(alloc);
    push_rich(&mut text, rule)?;
    Ok(Text::from_string(text))
}

/// Appends what `print_rich` gives.
///
/// Refuses for want of memory alone.
#[tactic(auto, unfolding(crate::specs::Canonical::canon))]
pub fn push_rich(out: &mut String, rule: &Rich) -> Result<(), Memory>
    ensures { OnOk result (string_bytes out.new ≡ string_bytes out.old ++ canon rule.now) }
{
    out.push_str("rule")?;
    push_priority(out, rule.priority)?;
    push_family(out, rule.family)?;
    push_side(out, "source", &rule.source)?;
    push_side(out, "destination", &rule.dest)?;
    push_element(out, &rule.element)?;
    push_log(out, &rule.log)?;
    push_audit(out, &rule.audit)?;
    push_action(out, &rule.action)
}

#[tactic(auto, unfolding(crate::specs::Canonical::priority_text))]
fn push_priority(out: &mut String, priority: i32) -> Result<(), Memory>
    ensures { OnOk result (string_bytes out.new ≡ string_bytes out.old ++ priority_text priority) }
{
    if !is_zero(priority) {
        write!(out, " priority=\"{priority}\"")?;
    }
    Ok(())
}

#[tactic(auto, unfolding(crate::specs::Canonical::family_part))]
fn push_family(out: &mut String, family: Option<Family>) -> Result<(), Memory>
    ensures { OnOk result (string_bytes out.new ≡ string_bytes out.old ++ family_part family) }
{
    if let Some(family) = family {
        write!(out, " family=\"{family}\"")?;
    }
    Ok(())
}

fn push_not(out: &mut String, not: bool) -> Result<(), Memory>
    ensures { OnOk result (string_bytes out.new ≡ string_bytes out.old ++ not_text not) }
{
    if not {
        out.push_str(" NOT")?;
    }
    Ok(())
}

#[tactic(auto, unfolding(crate::specs::Canonical::binding_text))]
fn push_binding(out: &mut String, what: &Binding) -> Result<(), Memory>
    ensures { OnOk result (string_bytes out.new ≡ string_bytes out.old ++ binding_text what.now) }
{
    match what {
        Binding::Net(net) => write!(out, " address=\"{net}\"")?,
        Binding::Mac(mac) => write!(out, " mac=\"{mac}\"")?,
        Binding::Set(name) => write!(out, " ipset=\"{name}\"")?,
    }
    Ok(())
}

#[tactic(auto, unfolding(crate::specs::Canonical::side_text))]
fn push_side(out: &mut String, word: &str, side: &Option<Side>) -> Result<(), Memory>
    ensures { OnOk result (string_bytes out.new ≡ string_bytes out.old ++ side_text word.now side.now) }
{
    if let Some(side) = side {
        write!(out, " {word}")?;
        push_not(out, side.not)?;
        push_binding(out, &side.what)?;
    }
    Ok(())
}

#[tactic(auto, unfolding(crate::specs::Canonical::port_text))]
fn push_port(out: &mut String, port: &Port) -> Result<(), Memory>
    ensures { OnOk result (string_bytes out.new ≡ string_bytes out.old ++ port_text port.now) }
{
    let Port { range, proto } = *port;
    write!(out, " port=\"{range}\" protocol=\"{proto}\"")?;
    Ok(())
}

/// Appends a word and a port.
fn push_ports(out: &mut String, word: &str, port: &Port) -> Result<(), Memory>
    ensures { OnOk result (string_bytes out.new ≡ string_bytes out.old ++ (word.now ++ port_text port.now)) }
{
    out.push_str(word)?;
    push_port(out, port)
}

fn push_to_port(out: &mut String, port: Option<u16>) -> Result<(), Memory>
    ensures { OnOk result (string_bytes out.new ≡ string_bytes out.old ++ to_port_text port) }
{
    if let Some(port) = port {
        write!(out, " to-port=\"{port}\"")?;
    }
    Ok(())
}

fn push_to_addr(out: &mut String, addr: Option<Addr>) -> Result<(), Memory>
    ensures { OnOk result (string_bytes out.new ≡ string_bytes out.old ++ to_addr_text addr) }
{
    if let Some(addr) = addr {
        write!(out, " to-addr=\"{addr}\"")?;
    }
    Ok(())
}

#[tactic(auto, unfolding(crate::specs::Canonical::forward_text))]
fn push_forward(out: &mut String, word: &str, forward: &Forward) -> Result<(), Memory>
    ensures { OnOk result (string_bytes out.new ≡ string_bytes out.old ++ (word.now ++ forward_text forward.now)) }
{
    push_ports(out, word, &forward.port)?;
    push_to_port(out, forward.to_port)?;
    push_to_addr(out, forward.to_addr)
}

#[tactic(auto, unfolding(crate::specs::Canonical::element_text))]
fn push_element(out: &mut String, element: &Option<Element>) -> Result<(), Memory>
    ensures { OnOk result (string_bytes out.new ≡ string_bytes out.old ++ element_text element.now) }
{
    let Some(element) = element else {
        return Ok(());
    };
    match element {
        Element::Service(name) => write!(out, " service name=\"{name}\"")?,
        Element::Port(port) => push_ports(out, " port", port)?,
        Element::Protocol(protocol) => write!(out, " protocol value=\"{protocol}\"")?,
        Element::IcmpBlock(name) => write!(out, " icmp-block name=\"{name}\"")?,
        Element::IcmpType(name) => write!(out, " icmp-type name=\"{name}\"")?,
        Element::Masquerade => out.push_str(" masquerade")?,
        Element::SourcePort(port) => push_ports(out, " source-port", port)?,
        Element::Forward(forward) => push_forward(out, " forward-port", forward)?,
    }
    Ok(())
}

/// A limit, printed as in a rule.
#[derive(Clone, Copy)]
struct Rate(Limit);

impl fmt::Display for Rate {
    ghost use Rattle.std.specs.Prelude.{Some};
    ghost use Rattle.fw_rich.specs.Canonical.{rate_text};

    ghost output = { λ rate. Some (rate_text rate.0) };

    fn fmt<W: fmt::Write>(&self, f: &mut fmt::Formatter<W>) -> fmt::Result {
        let count = self.0.count;
        let unit = self.0.unit.letter();
        write!(f, "{count}/{unit}")
    }
}

#[tactic(auto, unfolding(crate::specs::Canonical::limit_text))]
fn push_limit(out: &mut String, limit: &Option<Limit>) -> Result<(), Memory>
    ensures { OnOk result (string_bytes out.new ≡ string_bytes out.old ++ limit_text limit.now) }
{
    if let Some(limit) = limit {
        let rate = Rate(*limit);
        write!(out, " limit value=\"{rate}\"")?;
    }
    Ok(())
}

#[tactic(auto, unfolding(crate::specs::Canonical::prefix_text))]
fn push_prefix(out: &mut String, prefix: &str) -> Result<(), Memory>
    ensures { OnOk result (string_bytes out.new ≡ string_bytes out.old ++ prefix_text prefix.now) }
{
    if !prefix.is_empty() {
        write!(out, " prefix=\"{prefix}\"")?;
    }
    Ok(())
}

fn is_warning(level: Level) -> bool
    ensures { result ≡ is_warning level }
{
    matches!(level, Level::Warning)
}

#[tactic(auto, unfolding(crate::specs::Canonical::level_part))]
fn push_level(out: &mut String, level: Level) -> Result<(), Memory>
    ensures { OnOk result (string_bytes out.new ≡ string_bytes out.old ++ level_part level) }
{
    if !is_warning(level) {
        write!(out, " level=\"{level}\"")?;
    }
    Ok(())
}

#[tactic(auto, unfolding(crate::specs::Canonical::log_text))]
fn push_log(out: &mut String, log: &Option<RichLog>) -> Result<(), Memory>
    ensures { OnOk result (string_bytes out.new ≡ string_bytes out.old ++ log_text log.now) }
{
    if let Some(log) = log {
        out.push_str(" log")?;
        push_prefix(out, log.prefix.as_str())?;
        push_level(out, log.level)?;
        push_limit(out, &log.limit)?;
    }
    Ok(())
}

#[tactic(auto, unfolding(crate::specs::Canonical::audit_text))]
fn push_audit(out: &mut String, audit: &Option<Option<Limit>>) -> Result<(), Memory>
    ensures { OnOk result (string_bytes out.new ≡ string_bytes out.old ++ audit_text audit.now) }
{
    if let Some(limit) = audit {
        out.push_str(" audit")?;
        push_limit(out, limit)?;
    }
    Ok(())
}

fn push_mask(out: &mut String, mask: u32) -> Result<(), Memory>
    ensures { OnOk result (string_bytes out.new ≡ string_bytes out.old ++ mask_text mask) }
{
    if mask != u32::MAX {
        write!(out, "/0x{mask:x}")?;
    }
    Ok(())
}

#[tactic(auto, unfolding(crate::specs::Canonical::act_text))]
fn push_act(out: &mut String, act: &Act) -> Result<(), Memory>
    ensures { OnOk result (string_bytes out.new ≡ string_bytes out.old ++ act_text act.now) }
{
    match act {
        Act::Accept => out.push_str(" accept")?,
        Act::Reject(None) => out.push_str(" reject")?,
        Act::Reject(Some(kind)) => write!(out, " reject type=\"{kind}\"")?,
        Act::Drop => out.push_str(" drop")?,
        Act::Mark(value, mask) => {
            write!(out, " mark set=\"0x{value:x}")?;
            push_mask(out, *mask)?;
            out.push('"')?;
        }
    }
    Ok(())
}

#[tactic(auto, unfolding(crate::specs::Canonical::action_text))]
fn push_action(out: &mut String, action: &Option<Action>) -> Result<(), Memory>
    ensures { OnOk result (string_bytes out.new ≡ string_bytes out.old ++ action_text action.now) }
{
    if let Some(action) = action {
        push_act(out, &action.act)?;
        push_limit(out, &action.limit)?;
    }
    Ok(())
}
