//! Which packets a rich rule is about.
ghost use Rattle.std.specs.Prelude.{◌≡◌, ◌&&◌, None, Some, IfOk};
ghost use Rattle.fw_hits.specs.Rich.{hits_rich, is_at, is_of_element, is_of_rule, may_masquerade, turned};

use crate::hits::{hits_icmp, port_matches, source_port_matches};
use crate::services::service_hits;
use crate::sources::{Peer, is_of_family, is_v4, matches_source};
use fw_addr::Family;
use fw_base::Memory;
use fw_model::{Config, Element, IpSet, Packet, Rich, Side};
use std::alloc::Global;

/// Whether a rich rule is about a packet (firewalld.richlanguage(5)): it is of the rule's family, comes from its source, goes
/// to its destination and is of its element, where the rule has these. `NOT` turns an address part alone round.
///
/// Refuses for want of memory alone.
pub fn hits_rich(
    alloc: Global,
    config: &Config,
    rule: &Rich,
    packet: &Packet,
) -> Result<bool, Memory>
    ensures { IfOk result (λ hit. hit ≡ hits_rich config.now rule.now packet.now) }
{
    if !goes_the_way(config.ipsets.as_slice(), rule, packet) {
        return Ok(false);
    }
    match &rule.element {
        None => Ok(true),
        Some(element) => is_of_element(alloc, config, rule.family, packet, element),
    }
}

fn is_of_rule(family: Option<Family>, packet: &Packet) -> bool
    ensures { result ≡ is_of_rule family packet.now }
{
    match family {
        None => true,
        Some(family) => is_of_family(family, packet.src),
    }
}

fn turned(inverted: bool, holds: bool) -> bool
    ensures { result ≡ turned inverted holds }
{
    inverted != holds
}

fn is_at(sets: &[IpSet], peer: &Peer, side: &Option<Side>) -> bool
    ensures { result ≡ is_at sets.now peer.now.address peer.now.mac side.now }
{
    match side {
        None => true,
        Some(side) => turned(side.not, matches_source(sets, peer, &side.what)),
    }
}

/// Whether a packet is of a rule's family, comes from its source and goes to its destination.
fn goes_the_way(sets: &[IpSet], rule: &Rich, packet: &Packet) -> bool
    ensures { result ≡ (is_of_rule rule.now.family packet.now && is_at sets.now packet.now.src packet.now.mac rule.now.source && is_at sets.now packet.now.dst None rule.now.dest) }
{
    let sender = Peer {
        address: packet.src,
        mac: packet.mac,
    };
    let receiver = Peer {
        address: packet.dst,
        mac: None,
    };
    is_of_rule(rule.family, packet)
        && is_at(sets, &sender, &rule.source)
        && is_at(sets, &receiver, &rule.dest)
}

fn may_masquerade(family: Option<Family>, packet: &Packet) -> bool
    ensures { result ≡ may_masquerade family packet.now }
{
    family.is_some() || is_v4(packet.src)
}

fn is_of_element(
    alloc: Global,
    config: &Config,
    family: Option<Family>,
    packet: &Packet,
    element: &Element,
) -> Result<bool, Memory>
    ensures { IfOk result (λ hit. hit ≡ is_of_element config.now family packet.now (Some element.now)) }
{
    match element {
        Element::Service(name) => service_hits(
            alloc,
            config.services.as_slice(),
            name.as_str(),
            packet,
        ),
        Element::Port(port) => Ok(port_matches(port, packet)),
        Element::Protocol(protocol) => Ok(packet.proto == *protocol),
        Element::IcmpBlock(name) => Ok(hits_icmp(name.as_str(), packet)),
        Element::IcmpType(name) => Ok(hits_icmp(name.as_str(), packet)),
        Element::Masquerade => Ok(may_masquerade(family, packet)),
        Element::SourcePort(port) => Ok(source_port_matches(port, packet)),
        Element::Forward(forward) => Ok(port_matches(&forward.port, packet)),
    }
}
