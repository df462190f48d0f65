//! What is decided of a packet in the filter: to the host, through it, or from it.
ghost use Rattle.std.specs.Prelude.{◌≡◌, ◌&&◌, ◌||◌, codes, IfOk, None, Some, if◌then◌else◌, unwrap_or};
ghost use Rattle.std.specs.Option.{option_copied};
ghost use Rattle.fw_hits.specs.Plain.{is_icmp};
ghost use Rattle.fw_model.specs.Packets.{came_by};
ghost use Rattle.fw_model.specs.declared.outcome.Verdict.TheVariants as decision;
ghost use Rattle.fw_model.specs.declared.packet.Packet.{Packet};
ghost use Rattle.fw_model.specs.declared.packet.Via.TheVariants as via;
ghost use Rattle.fw_verdict.specs.Given.{Walks, is_let_on};
ghost use Rattle.fw_verdict.specs.Walk.{silently, walk};
ghost use Rattle.fw_verdict.specs.Way.{early_items, filtered, forwarded, forwarded_end, from_host, icmp_accepted, invalid_items, is_invalid, is_known, stays_within, target_forwarded, target_lines, to_host, to_host_end, zone_walk};

use crate::denied::{tell, tell_by_zone};
use crate::items::{REJECT, walk_rules};
use crate::policies::{End, Stage, walk_policies};
use fw_addr::{CtState, LogLine};
use fw_base::{Memory, Seq};
use fw_hits::{egress, ingress, is_icmp};
use fw_model::{Config, Origin, Packet, Verdict, Via, Zone, ZoneTarget};
use std::alloc::Global;

/// What is decided of a packet that goes by a way; without one it goes to the host. The lines that are logged come behind those
/// that are there.
///
/// Refuses for want of memory alone.
pub fn filtered(
    alloc: Global,
    config: &Config,
    packet: &Packet,
    leaving: Option<&Via>,
    logs: &mut Seq<LogLine>,
) -> Result<Verdict, Memory>
    ensures { IfOk result (λ verdict. Walks (filtered config.now packet.now packet.now.origin (unwrap_or (option_copied leaving.entry) via.Local)) logs.old logs.new (Some verdict)) }
{
    match &packet.origin {
        Origin::Host => match leaving {
            Some(Via::Link(name)) => from_host(alloc, config, packet, name.as_str(), logs),
            Some(Via::Local) => from_host(alloc, config, packet, "lo", logs),
            None => from_host(alloc, config, packet, "lo", logs),
        },
        Origin::Link(_) => match leaving {
            Some(Via::Link(name)) => forwarded(alloc, config, packet, name.as_str(), logs),
            Some(Via::Local) => to_host(alloc, config, packet, logs),
            None => to_host(alloc, config, packet, logs),
        },
    }
}

fn is_known(state: CtState) -> bool
    ensures { result ≡ is_known state }
{
    match state {
        CtState::Established => true,
        CtState::Related => true,
        _ => false,
    }
}

fn is_invalid(state: CtState) -> bool
    ensures { result ≡ is_invalid state }
{
    match state {
        CtState::Invalid => true,
        _ => false,
    }
}

fn came_by_lo(origin: &Origin) -> bool
    ensures { result ≡ came_by (codes "lo") origin.now }
{
    match origin {
        Origin::Host => false,
        Origin::Link(name) => name.as_str() == "lo",
    }
}

/// Whether a packet to the host or through it is accepted without any zone's settings.
fn is_let_on(packet: &Packet) -> bool
    ensures { result ≡ is_let_on packet.now }
{
    is_known(packet.state) || packet.dnat || came_by_lo(&packet.origin)
}

/// Drops a packet of no connection.
fn drop_invalid(
    alloc: Global,
    config: &Config,
    packet: &Packet,
    logs: &mut Seq<LogLine>,
) -> Result<Option<Verdict>, Memory>
    ensures { IfOk result (λ decided. Walks (walk (invalid_items config.now) packet.now) logs.old logs.new decided) }
{
    if !is_invalid(packet.state) {
        return Ok(None);
    }
    tell(alloc, config, packet, "STATE_INVALID_DROP: ", logs)?;
    Ok(Some(Verdict::Drop))
}

/// What is decided of a packet to the host or through it without any zone's settings.
fn early(
    alloc: Global,
    config: &Config,
    packet: &Packet,
    logs: &mut Seq<LogLine>,
) -> Result<Option<Verdict>, Memory>
    ensures { IfOk result (λ decided. Walks (walk (early_items config.now) packet.now) logs.old logs.new decided) }
{
    if is_let_on(packet) {
        return Ok(Some(Verdict::Accept));
    }
    drop_invalid(alloc, config, packet, logs)
}

/// Tells of a packet that a zone's target denies.
fn tell_target(
    alloc: Global,
    config: &Config,
    front: &str,
    zone: &Zone,
    packet: &Packet,
    logs: &mut Seq<LogLine>,
) -> Result<(), Memory>
    ensures { IfOk result (λ _. Walks (walk (target_lines config.now front.now zone.now.name zone.now.target) packet.now) logs.old logs.new None) }
{
    match zone.target {
        ZoneTarget::Accept => Ok(()),
        ZoneTarget::Drop => tell_by_zone(alloc, config, packet, front, &zone.name, "_DROP: ", logs),
        ZoneTarget::Reject => tell_by_zone(
            alloc,
            config,
            packet,
            front,
            &zone.name,
            "_REJECT: ",
            logs,
        ),
        ZoneTarget::Default => tell(alloc, config, packet, "FINAL_REJECT: ", logs),
    }
}

/// Whether a zone's target accepts ICMP to the host.
fn accepts_icmp(target: ZoneTarget) -> bool
    ensures { (packet : Packet) → walk (icmp_accepted target) packet ≡ silently (if result && is_icmp packet then Some decision.Accept else None) }
{
    match target {
        ZoneTarget::Default => true,
        _ => false,
    }
}

/// What the settings of a zone decide of a packet to the host, if anything.
fn walk_zone(
    alloc: Global,
    config: &Config,
    zone: Option<&Zone>,
    packet: &Packet,
    logs: &mut Seq<LogLine>,
) -> Result<Option<Verdict>, Memory>
    ensures { IfOk result (λ decided. Walks (zone_walk config.now packet.now (option_copied zone.entry)) logs.old logs.new decided) }
{
    match zone {
        Some(zone) => walk_rules(alloc, config, &zone.rules, zone.inversion, packet, logs),
        None => Ok(None),
    }
}

/// What a zone's target decides of a packet to the host. A packet of no zone is dropped.
fn end_to_host(
    alloc: Global,
    config: &Config,
    zone: Option<&Zone>,
    packet: &Packet,
    logs: &mut Seq<LogLine>,
) -> Result<Verdict, Memory>
    ensures { IfOk result (λ verdict. Walks (to_host_end config.now packet.now (option_copied zone.entry)) logs.old logs.new (Some verdict)) }
{
    let Some(zone) = zone else {
        return Ok(Verdict::Drop);
    };
    if accepts_icmp(zone.target) && is_icmp(packet) {
        return Ok(Verdict::Accept);
    }
    tell_target(alloc, config, "filter_IN_", zone, packet, logs)?;
    Ok(target_forwarded(zone.target))
}

fn to_host(
    alloc: Global,
    config: &Config,
    packet: &Packet,
    logs: &mut Seq<LogLine>,
) -> Result<Verdict, Memory>
    ensures { IfOk result (λ verdict. Walks (to_host config.now packet.now) logs.old logs.new (Some verdict)) }
{
    if let Some(verdict) = early(alloc, config, packet, logs)? {
        return Ok(verdict);
    }
    let zone = ingress(config, packet);
    let from = End::Zone(zone);
    let before = walk_policies(
        alloc,
        config,
        Stage::BeforeZone,
        from,
        End::Host,
        packet,
        logs,
    )?;
    if let Some(verdict) = before {
        return Ok(verdict);
    }
    if let Some(verdict) = walk_zone(alloc, config, zone, packet, logs)? {
        return Ok(verdict);
    }
    let behind = walk_policies(
        alloc,
        config,
        Stage::BehindZone,
        from,
        End::Host,
        packet,
        logs,
    )?;
    if let Some(verdict) = behind {
        return Ok(verdict);
    }
    end_to_host(alloc, config, zone, packet, logs)
}

/// Whether a forwarded packet stays within a zone that lets packets go from it to itself.
pub fn stays_within(from: Option<&Zone>, to: Option<&Zone>) -> bool
    ensures { result ≡ stays_within (option_copied from.entry) (option_copied to.entry) }
{
    let Some(from) = from else {
        return false;
    };
    match to {
        Some(to) => from.name.as_str() == to.name.as_str() && from.forward,
        None => false,
    }
}

/// What a zone's target decides of a packet that nothing else decided (firewalld.zone(5), `target`), but for ICMP to the host.
pub fn target_forwarded(target: ZoneTarget) -> Verdict
    ensures { result ≡ target_forwarded target }
{
    match target {
        ZoneTarget::Accept => Verdict::Accept,
        ZoneTarget::Drop => Verdict::Drop,
        ZoneTarget::Reject => REJECT,
        ZoneTarget::Default => REJECT,
    }
}

/// What a zone's target decides of a forwarded packet. A packet of no zone is dropped.
fn end_forwarded(
    alloc: Global,
    config: &Config,
    zone: Option<&Zone>,
    packet: &Packet,
    logs: &mut Seq<LogLine>,
) -> Result<Verdict, Memory>
    ensures { IfOk result (λ verdict. Walks (forwarded_end config.now packet.now (option_copied zone.entry)) logs.old logs.new (Some verdict)) }
{
    let Some(zone) = zone else {
        return Ok(Verdict::Drop);
    };
    tell_target(alloc, config, "filter_FWD_", zone, packet, logs)?;
    Ok(target_forwarded(zone.target))
}

fn forwarded(
    alloc: Global,
    config: &Config,
    packet: &Packet,
    name: &str,
    logs: &mut Seq<LogLine>,
) -> Result<Verdict, Memory>
    ensures { IfOk result (λ verdict. Walks (forwarded config.now packet.now name.now) logs.old logs.new (Some verdict)) }
{
    if let Some(verdict) = early(alloc, config, packet, logs)? {
        return Ok(verdict);
    }
    let zone = ingress(config, packet);
    let other = egress(config, packet, name);
    let from = End::Zone(zone);
    let to = End::Zone(other);
    let before = walk_policies(alloc, config, Stage::BeforeZone, from, to, packet, logs)?;
    if let Some(verdict) = before {
        return Ok(verdict);
    }
    if stays_within(zone, other) {
        return Ok(Verdict::Accept);
    }
    let behind = walk_policies(alloc, config, Stage::BehindZone, from, to, packet, logs)?;
    if let Some(verdict) = behind {
        return Ok(verdict);
    }
    end_forwarded(alloc, config, zone, packet, logs)
}

fn from_host(
    alloc: Global,
    config: &Config,
    packet: &Packet,
    name: &str,
    logs: &mut Seq<LogLine>,
) -> Result<Verdict, Memory>
    ensures { IfOk result (λ verdict. Walks (from_host config.now packet.now name.now) logs.old logs.new (Some verdict)) }
{
    if is_known(packet.state) {
        return Ok(Verdict::Accept);
    }
    if name == "lo" {
        return Ok(Verdict::Accept);
    }
    let to = End::Zone(egress(config, packet, name));
    let before = walk_policies(
        alloc,
        config,
        Stage::BeforeZone,
        End::Host,
        to,
        packet,
        logs,
    )?;
    if let Some(verdict) = before {
        return Ok(verdict);
    }
    let behind = walk_policies(
        alloc,
        config,
        Stage::BehindZone,
        End::Host,
        to,
        packet,
        logs,
    )?;
    Ok(behind.unwrap_or(Verdict::Accept))
}
