//! What the settings of a zone do with packets to the host, and those of a policy with the packets that it applies to.
ghost use Rattle.std.specs.Prelude.{◌≡◌, ◌==◌, ◌||◌, ◌&&◌, not, if◌then◌else◌, IfOk};
ghost use Rattle.std.specs.List.{list_any};
ghost use Rattle.fw_model.specs.Ports.{port_matches};
ghost use Rattle.fw_model.specs.declared.config.Config.{Config};
ghost use Rattle.fw_hits.specs.Plain.{hits_icmp, is_icmp};
ghost use Rattle.fw_verdict.specs.Given.{Walks};
ghost use Rattle.fw_verdict.specs.Items.{allow_items, deny_items, icmp_denied, items, level_items, listed_items};
ghost use Rattle.fw_hits.specs.Services.{service_hits, source_port_matches};
ghost use Rattle.fw_verdict.specs.Walk.{silently, walk};

use crate::rich::{Part, walk_part};
use fw_addr::{LogLine, RejectType};
use fw_base::{Memory, Seq};
use fw_hits::{any_icmp, any_port, any_protocol, any_service, any_source_port, is_icmp};
use fw_model::{Config, Packet, Rules, Verdict};
use std::alloc::Global;

/// What is told of a reject for which no type is said.
pub const REJECT: Verdict = Verdict::Reject(RejectType::IcmpxAdminProhibited);

/// Whether settings block a packet's ICMP type: one of those listed, or with inversion any other.
fn is_blocked(rules: &Rules, inversion: bool, packet: &Packet) -> bool
    ensures { result ≡ (if inversion then (is_icmp packet.now && not (list_any (λ name. hits_icmp name packet.now) rules.now.icmp_blocks)) else list_any (λ name. hits_icmp name packet.now) rules.now.icmp_blocks) }
{
    let listed = any_icmp(rules.icmp_blocks.as_slice(), packet);
    if inversion {
        is_icmp(packet) && !listed
    } else {
        listed
    }
}

/// What the blocked ICMP types decide.
fn deny_icmp(rules: &Rules, inversion: bool, packet: &Packet) -> Option<Verdict>
    ensures { (config : Config) → walk (icmp_denied config rules.now inversion) packet.now ≡ silently result }
{
    if is_blocked(rules, inversion, packet) {
        Some(REJECT)
    } else {
        None
    }
}

/// Whether settings let a packet in by a port, a protocol or a source port, or with inversion by its ICMP type.
fn has_entry(rules: &Rules, inversion: bool, packet: &Packet) -> bool
    ensures { result ≡ (((list_any (λ port. port_matches port packet.now) rules.now.ports || list_any (λ protocol. packet.now.proto == protocol) rules.now.protocols) || list_any (λ port. source_port_matches port packet.now) rules.now.source_ports) || (inversion && list_any (λ name. hits_icmp name packet.now) rules.now.icmp_blocks)) }
{
    any_port(rules.ports.as_slice(), packet)
        || any_protocol(rules.protocols.as_slice(), packet)
        || any_source_port(rules.source_ports.as_slice(), packet)
        || (inversion && any_icmp(rules.icmp_blocks.as_slice(), packet))
}

/// Whether settings let a packet in: by a service, a port, a protocol or a source port, or with inversion by its ICMP type.
fn is_allowed(
    alloc: Global,
    config: &Config,
    rules: &Rules,
    inversion: bool,
    packet: &Packet,
) -> Result<bool, Memory>
    ensures { IfOk result (λ passes. passes ≡ ((((list_any (λ name. service_hits config.now.services name packet.now) rules.now.services || list_any (λ port. port_matches port packet.now) rules.now.ports) || list_any (λ protocol. packet.now.proto == protocol) rules.now.protocols) || list_any (λ port. source_port_matches port packet.now) rules.now.source_ports) || (inversion && list_any (λ name. hits_icmp name packet.now) rules.now.icmp_blocks))) }
{
    let services = any_service(
        alloc,
        config.services.as_slice(),
        rules.services.as_slice(),
        packet,
    )?;
    Ok(services || has_entry(rules, inversion, packet))
}

/// What the services, ports, protocols and ICMP types decide.
fn allow_listed(
    alloc: Global,
    config: &Config,
    rules: &Rules,
    inversion: bool,
    packet: &Packet,
) -> Result<Option<Verdict>, Memory>
    ensures { IfOk result (λ decided. walk (listed_items config.now rules.now inversion) packet.now ≡ silently decided) }
{
    let passes = is_allowed(alloc, config, rules, inversion, packet)?;
    if passes {
        Ok(Some(Verdict::Accept))
    } else {
        Ok(None)
    }
}

/// What settings deny: by rich rules of priority 0, and by ICMP types.
fn deny(
    alloc: Global,
    config: &Config,
    rules: &Rules,
    inversion: bool,
    packet: &Packet,
    logs: &mut Seq<LogLine>,
) -> Result<Option<Verdict>, Memory>
    ensures { IfOk result (λ decided. Walks (walk (deny_items config.now rules.now inversion) packet.now) logs.old logs.new decided) }
{
    let decided = walk_part(alloc, config, Part::Deny, rules, packet, logs)?;
    if decided.is_some() {
        return Ok(decided);
    }
    Ok(deny_icmp(rules, inversion, packet))
}

/// What settings let in: by rich rules of priority 0, and by what they list.
fn allow(
    alloc: Global,
    config: &Config,
    rules: &Rules,
    inversion: bool,
    packet: &Packet,
    logs: &mut Seq<LogLine>,
) -> Result<Option<Verdict>, Memory>
    ensures { IfOk result (λ decided. Walks (walk (allow_items config.now rules.now inversion) packet.now) logs.old logs.new decided) }
{
    let decided = walk_part(alloc, config, Part::Allow, rules, packet, logs)?;
    if decided.is_some() {
        return Ok(decided);
    }
    allow_listed(alloc, config, rules, inversion, packet)
}

/// What settings of priority 0 decide: log lines, and then what is denied and what is let in.
fn walk_level(
    alloc: Global,
    config: &Config,
    rules: &Rules,
    inversion: bool,
    packet: &Packet,
    logs: &mut Seq<LogLine>,
) -> Result<Option<Verdict>, Memory>
    ensures { IfOk result (λ decided. Walks (walk (level_items config.now rules.now inversion) packet.now) logs.old logs.new decided) }
{
    let decided = walk_part(alloc, config, Part::Log, rules, packet, logs)?;
    if decided.is_some() {
        return Ok(decided);
    }
    let denied = deny(alloc, config, rules, inversion, packet, logs)?;
    if denied.is_some() {
        return Ok(denied);
    }
    allow(alloc, config, rules, inversion, packet, logs)
}

/// What the settings of a zone decide of a packet to the host, if anything (firewalld.richlanguage(5), "Information about
/// logging and actions"): rich rules before all others; log lines; what is denied, which is rejected for ICMP types whatever
/// the zone's target is; what is let in; and rich rules behind all others. The lines that are logged come behind those that are
/// there.
///
/// Refuses for want of memory alone.
pub fn walk_rules(
    alloc: Global,
    config: &Config,
    rules: &Rules,
    inversion: bool,
    packet: &Packet,
    logs: &mut Seq<LogLine>,
) -> Result<Option<Verdict>, Memory>
    ensures { IfOk result (λ decided. Walks (walk (items config.now rules.now inversion) packet.now) logs.old logs.new decided) }
{
    let decided = walk_part(alloc, config, Part::Pre, rules, packet, logs)?;
    if decided.is_some() {
        return Ok(decided);
    }
    let level = walk_level(alloc, config, rules, inversion, packet, logs)?;
    if level.is_some() {
        return Ok(level);
    }
    walk_part(alloc, config, Part::Post, rules, packet, logs)
}
