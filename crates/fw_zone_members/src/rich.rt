//! Rich rules as calls spell them.
ghost use Rattle.std.specs.Prelude.{◌≡◌};
ghost use Rattle.std.specs.List.{list_any};
ghost use Rattle.std.specs.Str.{bytes_eq};
ghost use Rattle.fw_act.specs.Acts.{Reads};
ghost use Rattle.fw_rich.specs.Rich.{rich_text};
ghost use Rattle.fw_zone_members.specs.RichRules.{ipset_known, rule_of, rule_read, service_known, side_known, sides_known};

use fw_act::{Stop, refuse, require};
use fw_model::{Binding, Code, Config, Element, IpSet, Rich, Service, Side};
use fw_rich::{RichError, read_rich, refused_value};
use fw_service::knows;
use std::alloc::Global;

/// The rule that a text spells; its service and its ipsets are ones of the configuration's.
#[tactic(auto, unfolding(crate::specs::RichRules::rule_of))]
pub fn read_rule(alloc: Global, config: &Config, text: &str) -> Result<Rich, Stop>
    ensures { Reads result (rule_of config.now text.now) }
{
    let rule = read_text(alloc, text)?;
    require(
        alloc,
        is_service_known(config.services.as_slice(), &rule.element),
        Code::InvalidService,
        text,
    )?;
    require(
        alloc,
        are_sides_known(config.ipsets.as_slice(), &rule),
        Code::InvalidIpset,
        text,
    )?;
    Ok(rule)
}

fn read_text(alloc: Global, text: &str) -> Result<Rich, Stop>
    ensures { Reads result (rule_read text.now (rich_text text.now)) }
{
    match read_rich(alloc, text) {
        Ok(rule) => Ok(rule),
        Err(RichError::Rule(_)) => { Err(Stop::Refused(refuse(alloc, Code::InvalidRule, text)?)) }
        Err(RichError::Part(code, place)) => {
            Err(Stop::Refused(refuse(alloc, code, refused_value(text, place))?))
        }
        Err(RichError::MissingFamily) => {
            Err(Stop::Refused(refuse(alloc, Code::MissingFamily, text)?))
        }
        Err(RichError::Memory) => Err(Stop::Memory),
    }
}

fn is_service_known(services: &[Service], element: &Option<Element>) -> bool
    ensures { result ≡ service_known services.now element.now }
{
    match element {
        Some(Element::Service(name)) => knows(services, name.as_str()),
        _ => true,
    }
}

fn are_sides_known(ipsets: &[IpSet], rule: &Rich) -> bool
    ensures { result ≡ sides_known ipsets.now rule.now }
{
    is_side_known(ipsets, &rule.source) && is_side_known(ipsets, &rule.dest)
}

fn is_side_known(ipsets: &[IpSet], side: &Option<Side>) -> bool
    ensures { result ≡ side_known ipsets.now side.now }
{
    match side {
        Some(side) => is_ipset_known(ipsets, &side.what),
        None => true,
    }
}

fn is_ipset_known(ipsets: &[IpSet], binding: &Binding) -> bool
    ensures { result ≡ ipset_known ipsets.now binding.now }
{
    match binding {
        Binding::Set(name) => has_set(ipsets, name.as_str()),
        Binding::Net(_) | Binding::Mac(_) => true,
    }
}

/// Whether there is an ipset of a name.
pub fn has_set(ipsets: &[IpSet], name: &str) -> bool
    ensures { result ≡ list_any (λ set. bytes_eq set.name name.now) ipsets.now }
{
    ipsets.iter().any(|set| set.name.as_str() == name)
}
