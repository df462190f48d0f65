//! Rich rules as calls spell them.
ghost use Rattle.std.specs.Prelude.{◌≡◌};
ghost use Rattle.fw_answer.specs.Refusals.{Reads};
ghost use Rattle.fw_rich.specs.Rich.{rich_text};
ghost use Rattle.fw_zone_calls.specs.RichRules.{ipset_known, is_mark, is_walked, marks, required, rule_of, rule_read, service_known, side_known, sides_known, translates};

use super::entry::has_set;
use fw_answer::{Stop, refuse};
use fw_model::{Act, Action, Binding, Code, Element, IpSet, Rich, Service, Side};
use fw_rich::{RichError, read_rich, refused_value};
use fw_service::knows;
use std::alloc::Global;

/// The rule that a text spells; its service and its ipsets are ones of the configuration's.
#[tactic(auto, unfolding(crate::specs::RichRules::rule_of))]
pub fn read_rule(
    alloc: Global,
    services: &[Service],
    ipsets: &[IpSet],
    text: &str,
) -> Result<Rich, Stop>
    ensures { Reads result (rule_of services.now ipsets.now text.now) }
{
    let rule = read_text(alloc, text)?;
    require(alloc, is_walked(&rule), Code::InvalidRule, text)?;
    require(
        alloc,
        is_service_known(services, &rule.element),
        Code::InvalidService,
        text,
    )?;
    require(
        alloc,
        are_sides_known(ipsets, &rule),
        Code::InvalidIpset,
        text,
    )?;
    Ok(rule)
}

fn read_text(alloc: Global, text: &str) -> Result<Rich, Stop>
    ensures { Reads result (rule_read text.now (rich_text text.now)) }
{
    match read_rich(alloc, text) {
        Ok(rule) => Ok(rule),
        Err(RichError::Rule(_)) => { Err(Stop::Refused(refuse(alloc, Code::InvalidRule, text)?)) }
        Err(RichError::Part(code, place)) => {
            Err(Stop::Refused(refuse(alloc, code, refused_value(text, place))?))
        }
        Err(RichError::MissingFamily) => {
            Err(Stop::Refused(refuse(alloc, Code::MissingFamily, text)?))
        }
        Err(RichError::Memory) => Err(Stop::Memory),
    }
}

/// Refuses the text where something doesn't hold of its rule.
fn require(alloc: Global, holds: bool, code: Code, text: &str) -> Result<(), Stop>
    ensures { Reads result (required holds code text.now) }
{
    if holds {
        Ok(())
    } else {
        Err(Stop::Refused(refuse(alloc, code, text)?))
    }
}

/// Whether packets are walked through a rule: translation and marks aren't there yet.
fn is_walked(rule: &Rich) -> bool
    ensures { result ≡ is_walked rule.now }
{
    !translates(&rule.element) && !marks(&rule.action)
}

fn translates(element: &Option<Element>) -> bool
    ensures { result ≡ translates element.now }
{
    match element {
        Some(Element::Masquerade) => true,
        Some(Element::Forward(_)) => true,
        _ => false,
    }
}

fn marks(action: &Option<Action>) -> bool
    ensures { result ≡ marks action.now }
{
    match action {
        Some(action) => is_mark(action.act),
        None => false,
    }
}

fn is_mark(act: Act) -> bool
    ensures { result ≡ is_mark act }
{
    match act {
        Act::Mark(_, _) => true,
        _ => false,
    }
}

fn is_service_known(services: &[Service], element: &Option<Element>) -> bool
    ensures { result ≡ service_known services.now element.now }
{
    match element {
        Some(Element::Service(name)) => knows(services, name.as_str()),
        _ => true,
    }
}

fn are_sides_known(ipsets: &[IpSet], rule: &Rich) -> bool
    ensures { result ≡ sides_known ipsets.now rule.now }
{
    is_side_known(ipsets, &rule.source) && is_side_known(ipsets, &rule.dest)
}

fn is_side_known(ipsets: &[IpSet], side: &Option<Side>) -> bool
    ensures { result ≡ side_known ipsets.now side.now }
{
    match side {
        Some(side) => is_ipset_known(ipsets, &side.what),
        None => true,
    }
}

fn is_ipset_known(ipsets: &[IpSet], binding: &Binding) -> bool
    ensures { result ≡ ipset_known ipsets.now binding.now }
{
    match binding {
        Binding::Set(name) => has_set(ipsets, name.as_str()),
        Binding::Net(_) | Binding::Mac(_) => true,
    }
}
