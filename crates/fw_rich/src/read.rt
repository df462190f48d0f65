//! Rich rules by their texts.
ghost use Rattle.fw_rich.specs.Rich.{Answers, not_refused, of_family, parts_of, rich_text, said, stopped, together, with_family, without};
ghost use Rattle.fw_rich.specs.Refusals.{foreign_address, foreign_type};
ghost use Rattle.fw_rich.specs.Values.{rule_of};
ghost use Rattle.std.specs.Prelude.{◌≡◌};

use super::error::{RichError, ValueError};
use super::grammar::rule;
use super::parts::{ElementParts, RuleParts};
use super::reading::rule_of;
use super::refusals::{
    aimless_forward, fits_together, foreign_address, foreign_type, lacks_family,
};
use super::tokens::{Stop, Tokens};
use fw_addr::Family;
use fw_model::{Code, Rich};
use std::alloc::Global;

/// Reads a rich rule (firewalld.richlanguage(5)). A text is refused for the first of these that holds.
///
/// - Rule, with the first byte of the first token that can't continue a rule, or of what should be a token and is none,
///   or with the text's length where it ends too soon. A family that is neither `ipv4` nor `ipv6` can't continue one.
/// - Part, with the first byte of the first bad value, its quote included.
/// - MissingFamily: an address of a source or a destination, or a forward port, without a family.
/// - Part of INVALID_ADDR: an address that isn't of the rule's family.
/// - Part of INVALID_ICMPTYPE: a type that the family hasn't.
/// - Part of INVALID_FORWARD, with the first byte of `forward-port`, which has neither a port nor an address to forward to.
/// - Rule, with 0: `icmp-block`, `masquerade` or `forward-port` stands with an action; another rule has no action, log or
///   audit; an audit stands without accept, reject or drop; a type of rejects stands without a family or isn't one of it;
///   or there is no element, source and destination while the priority is 0.
///
/// Memory may come at any time.
#[tactic(auto, unfolding(crate::specs::Rich::rich_text))]
pub fn read_rich(alloc: Global, text: &str) -> Result<Rich, RichError>
    ensures { Answers result (rich_text text.now) }
{
    let parts = parts_of(text)?;
    let rule = said(alloc, &parts)?;
    not_refused(&parts, &rule)?;
    Ok(rule)
}

fn stopped(size: usize, stop: Stop) -> RichError
    ensures { result ≡ stopped size stop }
{
    match stop {
        Stop::At(offset) => RichError::Rule(offset),
        Stop::End => RichError::Rule(size),
    }
}

#[tactic(auto, unfolding(crate::specs::Rich::parts_of))]
fn parts_of(text: &str) -> Result<RuleParts<'_>, RichError>
    ensures { result ≡ parts_of text.now }
{
    let mut left = Tokens::of(text);
    match rule(&mut left) {
        Ok(parts) => Ok(parts),
        Err(stop) => Err(stopped(text.len(), stop)),
    }
}

fn said(alloc: Global, parts: &RuleParts) -> Result<Rich, RichError>
    ensures { Answers result (said (rule_of parts.now)) }
{
    match rule_of(alloc, parts) {
        Ok(rule) => Ok(rule),
        Err(ValueError::Bad(bad)) => Err(RichError::Part(bad.code, bad.place)),
        Err(ValueError::Memory) => Err(RichError::Memory),
    }
}

fn with_family(lacking: bool) -> Result<(), RichError>
    ensures { result ≡ with_family lacking }
{
    if lacking {
        Err(RichError::MissingFamily)
    } else {
        Ok(())
    }
}

fn without(code: Code, place: Option<usize>) -> Result<(), RichError>
    ensures { result ≡ without code place }
{
    match place {
        Some(place) => Err(RichError::Part(code, place)),
        None => Ok(()),
    }
}

fn together(fit: bool) -> Result<(), RichError>
    ensures { result ≡ together fit }
{
    if fit { Ok(()) } else { Err(RichError::Rule(0)) }
}

fn address_of_family(family: Option<Family>, parts: &RuleParts, rule: &Rich) -> Option<usize>
    ensures { result ≡ of_family (λ family. foreign_address family parts.now rule.now) family }
{
    foreign_address(family?, parts, rule)
}

fn type_of_family(family: Option<Family>, parts: &Option<ElementParts>) -> Option<usize>
    ensures { result ≡ of_family (λ family. foreign_type family parts.now) family }
{
    foreign_type(family?, parts)
}

#[tactic(auto, unfolding(crate::specs::Rich::not_refused))]
fn not_refused(parts: &RuleParts, rule: &Rich) -> Result<(), RichError>
    ensures { result ≡ not_refused parts.now rule.now }
{
    with_family(lacks_family(parts))?;
    without(
        Code::InvalidAddr,
        address_of_family(rule.family, parts, rule),
    )?;
    without(
        Code::InvalidIcmptype,
        type_of_family(rule.family, &parts.element),
    )?;
    without(Code::InvalidForward, aimless_forward(&parts.element))?;
    together(fits_together(rule))
}
