//! The alternatives of rich rules.
ghost use Rattle.std.specs.Prelude.{◌≡◌, ◌++◌, [], ◌∷◌, IfOk};
ghost use Rattle.fw_model.specs.declared.setting.Setting.TheVariants as setting;
ghost use Rattle.lower_match.specs.Lowers.{Lowers};
ghost use Rattle.lower_match.specs.RichForms.{LowersElement, behind, masquerade_matches, sides_ask};
ghost use Rattle.lower_match.specs.Stands.{Stand, StandAnywhere};

use crate::alternatives::{alone, is, port_test, source_port_test};
use crate::icmp::icmp_matches;
use crate::service::service_matches;
use crate::sides::sides;
use fw_addr::Family;
use fw_base::{Memory, Seq, TryCopy};
use fw_model::{Element, IpSet, Rich, Service};
use nf_rules::{Match, Test};
use std::alloc::Global;

/// The alternatives of a rich rule (firewalld.richlanguage(5)): those of its element, each behind what its family, source and
/// destination ask. A set that isn't known holds nothing, so a rule that asks for it has no alternative.
///
/// Refuses for want of memory alone.
pub fn rich_matches(
    alloc: Global,
    rule: &Rich,
    services: &[Service],
    ipsets: &[IpSet],
) -> Result<Seq<Seq<Match>>, Memory>
    ensures tells { IfOk result (λ alternatives. Lowers services.now ipsets.now (setting.Rich rule.now) alternatives) }
    ensures stand { IfOk result (Stand ipsets.now) }
{
    let Some(front) = sides(alloc, rule, ipsets)? else {
        return Ok(Seq::new(alloc));
    };
    let elements = element_matches(alloc, rule, services)?;
    put_behind(alloc, front.as_slice(), elements)
}

/// The alternatives of a rule's element. Without one all packets are meant.
fn element_matches(
    alloc: Global,
    rule: &Rich,
    services: &[Service],
) -> Result<Seq<Seq<Match>>, Memory>
    ensures tells { IfOk result (λ alternatives. LowersElement services.now rule.now.family rule.now.element alternatives) }
    ensures stand { IfOk result StandAnywhere }
{
    let Some(element) = &rule.element else {
        return only(alloc, Seq::new(alloc));
    };
    match element {
        Element::Service(name) => service_matches(alloc, services, name.as_str()),
        Element::Port(port) => alone(alloc, port_test(port)),
        Element::Protocol(protocol) => alone(alloc, Test::Proto(*protocol)),
        Element::IcmpBlock(name) => icmp_matches(alloc, name.as_str()),
        Element::IcmpType(name) => icmp_matches(alloc, name.as_str()),
        Element::Masquerade => only(alloc, masquerade_matches(alloc, rule.family)?),
        Element::SourcePort(port) => alone(alloc, source_port_test(port)),
        Element::Forward(forward) => alone(alloc, port_test(&forward.port)),
    }
}

fn masquerade_matches(alloc: Global, family: Option<Family>) -> Result<Seq<Match>, Memory>
    ensures { IfOk result (λ matches. matches ≡ masquerade_matches family) }
{
    let mut matches = Seq::new(alloc);
    if family.is_none() {
        matches.push(is(Test::Family(Family::V4)))?;
    }
    Ok(matches)
}

/// One alternative.
fn only(alloc: Global, matches: Seq<Match>) -> Result<Seq<Seq<Match>>, Memory>
    ensures { IfOk result (λ alternatives. alternatives ≡ matches ∷ []) }
{
    let mut alternatives = Seq::new(alloc);
    alternatives.push(matches)?;
    Ok(alternatives)
}

/// Alternatives, each behind what all of them ask.
fn put_behind(
    alloc: Global,
    front: &[Match],
    alternatives: Seq<Seq<Match>>,
) -> Result<Seq<Seq<Match>>, Memory>
    ensures { IfOk result (λ made. made ≡ behind front.now alternatives) }
{
    let mut made = Seq::new(alloc);
    for alternative in alternatives.into_vec() {
        made.push(joined(alloc, front, alternative)?)?;
    }
    Ok(made)
}

fn joined(alloc: Global, front: &[Match], rest: Seq<Match>) -> Result<Seq<Match>, Memory>
    ensures { IfOk result (λ matches. matches ≡ front.now ++ rest) }
{
    let mut matches = Match::copy_all(alloc, front)?;
    matches.append(&mut rest.into_vec())?;
    Ok(Seq::from_vec(matches))
}
