//! Translation of the destination: forwarded ports (firewalld.zone(5) and firewalld.richlanguage(5), `forward-port`).
ghost use Rattle.std.specs.Prelude.{◌≡◌, ◌&&◌, IfOk, List, map};
ghost use Rattle.std.specs.List.{filter, find, flat_map};
ghost use Rattle.std.specs.Option.{option_copied};
ghost use Rattle.fw_addr.specs.declared.log.LogLine.{LogLine};
ghost use Rattle.fw_hits.specs.Plain.{is_ipv4};
ghost use Rattle.fw_model.specs.Ports.{port_matches};
ghost use Rattle.fw_model.specs.declared.config.Config.{Config};
ghost use Rattle.fw_order.specs.Borrowed.{lent};
ghost use Rattle.fw_order.specs.Order.{by_priority};
ghost use Rattle.fw_verdict.specs.Led.{SendsTo, forward_rule_items, target_given};
ghost use Rattle.fw_verdict.specs.Outside.{port_item, stands_at, target_of, translation_items};
ghost use Rattle.fw_verdict.specs.Sides.{entering};
ghost use Rattle.fw_verdict.specs.declared.sides.Side.TheVariants as side;

use crate::outside::{Place, rules_at};
use crate::rich::log;
use crate::sides::{Side, settings_beside};
use fw_addr::{Addr, Dnat, LogLine};
use fw_base::{Memory, Seq};
use fw_hits::{hits_rich, ingress};
use fw_model::{Config, Element, Forward, Packet, Port, Rich, Rules};
use std::alloc::Global;

fn target_of(forward: &Forward) -> Dnat
    ensures { result ≡ target_of forward.now }
{
    Dnat {
        addr: forward.to_addr,
        port: forward.to_port,
    }
}

/// To where a rule forwards, if it does.
fn target_by(element: &Option<Element>) -> Option<Dnat>
    ensures { result ≡ target_given element.now }
{
    match element {
        Some(Element::Forward(forward)) => Some(target_of(forward)),
        _ => None,
    }
}

/// Does what a rule that forwards a port does with a packet that it is about: logs its line, and translates the destination.
fn act(
    alloc: Global,
    config: &Config,
    rule: &Rich,
    packet: &Packet,
    logs: &mut Seq<LogLine>,
) -> Result<Option<Dnat>, Memory>
    ensures { IfOk result (λ found. SendsTo (forward_rule_items config.now rule.now) packet.now logs.old logs.new found) }
{
    if !hits_rich(alloc, config, rule, packet)? {
        return Ok(None);
    }
    log(alloc, rule, packet, logs)?;
    Ok(target_by(&rule.element))
}

fn act_in_turn(
    alloc: Global,
    config: &Config,
    rules: &[&Rich],
    packet: &Packet,
    logs: &mut Seq<LogLine>,
) -> Result<Option<Dnat>, Memory>
    ensures { IfOk result (λ found. SendsTo (flat_map (forward_rule_items config.now) (lent rules.now)) packet.now logs.old logs.new found) }
{
    for rule in rules {
        let found = act(alloc, config, rule, packet, logs)?;
        if found.is_some() {
            return Ok(found);
        }
    }
    Ok(None)
}

/// To where the rules of a place send a packet, if they do.
fn target_by_rules(
    alloc: Global,
    config: &Config,
    place: Place,
    rules: &Rules,
    packet: &Packet,
    logs: &mut Seq<LogLine>,
) -> Result<Option<Dnat>, Memory>
    ensures { IfOk result (λ found. SendsTo (flat_map (forward_rule_items config.now) (by_priority (filter (stands_at place) rules.now.rich))) packet.now logs.old logs.new found) }
{
    let ordered = rules_at(alloc, place, rules.rich.as_slice())?;
    act_in_turn(alloc, config, ordered.as_slice(), packet, logs)
}

/// Whether a packet is of IPv4.
pub fn is_ipv4(packet: &Packet) -> bool
    ensures { result ≡ is_ipv4 packet.now }
{
    match packet.src {
        Addr::V4(_) => true,
        Addr::V6(_) => false,
    }
}

/// Whether a packet has the protocol of a port, and a destination port in its range.
fn port_matches(port: &Port, packet: &Packet) -> bool
    ensures { result ≡ port_matches port.now packet.now }
{
    packet.proto == port.proto.proto() && port.range.contains(packet.dport)
}

/// Whether a forwarded port that is no rich rule is about a packet: it is for IPv4 alone.
fn is_about(forward: &Forward, packet: &Packet) -> bool
    ensures { result ≡ (is_ipv4 packet.now && port_matches forward.now.port packet.now) }
{
    is_ipv4(packet) && port_matches(&forward.port, packet)
}

/// The first forwarded port that is about a packet, of those that are no rich rules.
fn first_port<'a>(forwards: &'a [Forward], packet: &Packet) -> Option<&'a Forward>
    ensures { option_copied result ≡ find (λ forward. is_ipv4 packet.now && port_matches forward.port packet.now) forwards.now }
{
    forwards.iter().find(|forward| is_about(forward, packet))
}

/// To where a forwarded port that is no rich rule sends a packet, if one does.
fn target_by_port(forwards: &[Forward], packet: &Packet) -> Option<Dnat>
    ensures { (config : Config) (logs : List LogLine) → SendsTo (map (port_item config) forwards.now) packet.now logs logs result }
{
    match first_port(forwards, packet) {
        Some(forward) => Some(target_of(forward)),
        None => None,
    }
}

/// To where the settings of a zone or a policy send a packet, if they do: rich rules of a priority of 0 and below, the forwarded ports
/// that are no rich rules, and rich rules of a priority above 0.
fn target_by_settings(
    alloc: Global,
    config: &Config,
    rules: &Rules,
    packet: &Packet,
    logs: &mut Seq<LogLine>,
) -> Result<Option<Dnat>, Memory>
    ensures { IfOk result (λ found. SendsTo (translation_items config.now rules.now) packet.now logs.old logs.new found) }
{
    let found = target_by_rules(alloc, config, Place::ForwardsBefore, rules, packet, logs)?;
    if found.is_some() {
        return Ok(found);
    }
    let by_port = target_by_port(rules.forwards.as_slice(), packet);
    if by_port.is_some() {
        return Ok(by_port);
    }
    target_by_rules(alloc, config, Place::ForwardsBehind, rules, packet, logs)
}

fn target_in_turn(
    alloc: Global,
    config: &Config,
    settings: &[&Rules],
    packet: &Packet,
    logs: &mut Seq<LogLine>,
) -> Result<Option<Dnat>, Memory>
    ensures { IfOk result (λ found. SendsTo (flat_map (translation_items config.now) (lent settings.now)) packet.now logs.old logs.new found) }
{
    for rules in settings {
        let found = target_by_settings(alloc, config, rules, packet, logs)?;
        if found.is_some() {
            return Ok(found);
        }
    }
    Ok(None)
}

/// To where a packet is sent that came by an interface and begins a connection: by the first forwarded port that is about it, of the
/// policies from its zone and of the zone. The lines that are logged come behind those that are there.
///
/// Refuses for want of memory alone.
pub fn target(
    alloc: Global,
    config: &Config,
    packet: &Packet,
    logs: &mut Seq<LogLine>,
) -> Result<Option<Dnat>, Memory>
    ensures { IfOk result (λ found. SendsTo (entering config.now side.Translated packet.now) packet.now logs.old logs.new found) }
{
    let zone = ingress(config, packet);
    let settings = settings_beside(alloc, config, Side::Translated, zone)?;
    target_in_turn(alloc, config, settings.as_slice(), packet, logs)
}
