//! The way of a packet through the firewall.
ghost use Rattle.std.specs.Prelude.{◌≡◌, true, IfOk, None, Some, [], unwrap_or, Option, ℕ};
ghost use Rattle.std.specs.List.{find};
ghost use Rattle.std.specs.Option.{option_copied};
ghost use Rattle.fw_addr.specs.Subnets.{in_net};
ghost use Rattle.fw_addr.specs.declared.dnat.Dnat.{Dnat};
ghost use Rattle.fw_model.specs.declared.packet.Via.TheVariants as via;
ghost use Rattle.fw_verdict.specs.Changes.{with_mark};
ghost use Rattle.fw_verdict.specs.Led.{IsUnmoved, masked, moved_by, sent_on, standing};
ghost use Rattle.fw_verdict.specs.Way.{behind_prerouting, is_accept, is_new, leaves_by, marked, may_masquerade, panicked, passed, postrouted, route, routed_by, sends_to, translated, way};

use crate::filter::filtered;
use crate::marks;
use crate::masquerade::masquerades;
use crate::translation::target;
use fw_addr::{Addr, CtState, Dnat, LogLine, Net};
use fw_base::{Memory, Seq, TryCopy};
use fw_model::{Config, Origin, Outcome, Packet, Runtime, Verdict, Via};
use std::alloc::Global;

/// What becomes of a packet under the settings in force (firewalld.zone(5)): its verdict, its mark, the translation of its
/// destination, whether it is masqueraded, and the lines that are logged.
///
/// Refuses for want of memory alone.
pub fn verdict(alloc: Global, runtime: &Runtime, packet: &Packet) -> Result<Outcome, Memory>
    ensures { IfOk result (λ outcome. outcome ≡ way runtime.now packet.now) }
{
    if runtime.panic {
        return Ok(panicked(alloc, packet));
    }
    passed(alloc, &runtime.config, packet)
}

/// In panic mode every packet is dropped, with its own mark.
fn panicked(alloc: Global, packet: &Packet) -> Outcome
    ensures { result ≡ panicked packet.now }
{
    Outcome {
        verdict: Verdict::Drop,
        mark: packet.mark,
        dnat: None,
        masquerade: false,
        logs: Seq::new(alloc),
    }
}

/// Whether a mark and a destination leave a packet as it is.
fn is_unmoved(packet: &Packet, mark: u32, dnat: Option<Dnat>) -> bool
    ensures { result ≡ true → IsUnmoved packet.now mark dnat }
{
    mark == packet.mark && dnat.is_none()
}

/// The steps before routing, and then the others. A packet that these change is copied.
fn passed(alloc: Global, config: &Config, packet: &Packet) -> Result<Outcome, Memory>
    ensures { IfOk result (λ outcome. outcome ≡ passed config.now packet.now) }
{
    let mut logs = Seq::new(alloc);
    let mark = mark(alloc, config, packet, &mut logs)?;
    let dnat = translation(alloc, config, packet, &mut logs)?;
    if is_unmoved(packet, mark, dnat) {
        return go_on(alloc, config, packet, None, logs);
    }
    let moved = moved(alloc, packet, mark, dnat)?;
    go_on(alloc, config, &moved, dnat, logs)
}

/// The mark of a packet. One of the host keeps its own.
fn mark(
    alloc: Global,
    config: &Config,
    packet: &Packet,
    logs: &mut Seq<LogLine>,
) -> Result<u32, Memory>
    ensures { IfOk result (λ mark. marked config.now (standing packet.now None logs.old) ≡ standing (with_mark mark packet.now) None logs.new) }
{
    match &packet.origin {
        Origin::Host => Ok(packet.mark),
        Origin::Link(_) => marks::marked(alloc, config, packet, logs),
    }
}

fn is_new(state: CtState) -> bool
    ensures { result ≡ is_new state }
{
    match state {
        CtState::New => true,
        _ => false,
    }
}

/// To where a packet is sent in place of its destination. One of the host, and one that begins no connection, keeps its own.
fn translation(
    alloc: Global,
    config: &Config,
    packet: &Packet,
    logs: &mut Seq<LogLine>,
) -> Result<Option<Dnat>, Memory>
    ensures { IfOk result (λ found. (mark : ℕ) → translated config.now (standing (with_mark mark packet.now) None logs.old) ≡ (sent_on found (standing (with_mark mark packet.now) None logs.new)).now) }
{
    match &packet.origin {
        Origin::Host => Ok(None),
        Origin::Link(_) => {
            if is_new(packet.state) {
                target(alloc, config, packet, logs)
            } else {
                Ok(None)
            }
        }
    }
}

/// A packet with another mark, and where it is sent with another destination.
fn moved(alloc: Global, packet: &Packet, mark: u32, dnat: Option<Dnat>) -> Result<Packet, Memory>
    ensures { IfOk result (λ moved. moved ≡ moved_by dnat (with_mark mark packet.now)) }
{
    let mut moved = packet.copy(alloc)?;
    moved.mark = mark;
    if let Some(dnat) = dnat {
        moved.dst = dnat.addr.unwrap_or(packet.dst);
        moved.dport = dnat.port.unwrap_or(packet.dport);
        moved.dnat = true;
    }
    Ok(moved)
}

/// The steps from routing on.
fn go_on(
    alloc: Global,
    config: &Config,
    packet: &Packet,
    dnat: Option<Dnat>,
    logs: Seq<LogLine>,
) -> Result<Outcome, Memory>
    ensures { IfOk result (λ outcome. outcome ≡ behind_prerouting config.now (standing packet.now dnat logs)) }
{
    let mut logs = logs;
    let leaving = routed(packet, dnat);
    let verdict = filtered(alloc, config, packet, leaving, &mut logs)?;
    let masquerade = postrouted(alloc, config, packet, leaving, verdict, &mut logs)?;
    Ok(Outcome {
        verdict,
        mark: packet.mark,
        dnat,
        masquerade,
        logs,
    })
}

/// The first route whose net holds the destination.
fn first_route(packet: &Packet) -> Option<&(Net, Via)>
    ensures { option_copied result ≡ find (λ entry. in_net entry.0 packet.now.dst) packet.now.routes }
{
    packet
        .routes
        .as_slice()
        .iter()
        .find(|entry| entry.0.contains(&packet.dst))
}

/// Where the first route that holds the destination leads. None: no route does.
fn route(packet: &Packet) -> Option<&Via>
    ensures { unwrap_or (option_copied result) via.Local ≡ route packet.now }
{
    match first_route(packet) {
        Some(entry) => Some(&entry.1),
        None => None,
    }
}

/// Where a packet goes behind a translation; one without an address sends it to the host. None: to the host, too.
fn routed(packet: &Packet, dnat: Option<Dnat>) -> Option<&Via>
    ensures { unwrap_or (option_copied result) via.Local ≡ routed_by dnat (route packet.now) }
{
    match dnat {
        None => route(packet),
        Some(dnat) => match dnat.addr {
            Some(_) => route(packet),
            None => None,
        },
    }
}

/// By which interface a packet leaves, if it does. What the host sends to itself leaves by `lo`.
fn leaves_by<'a>(origin: &Origin, leaving: Option<&'a Via>) -> Option<&'a str>
    ensures { option_copied result ≡ leaves_by origin.now (unwrap_or (option_copied leaving.entry) via.Local) }
{
    match leaving {
        Some(Via::Link(name)) => Some(name.as_str()),
        Some(Via::Local) => by_lo(origin),
        None => by_lo(origin),
    }
}

fn by_lo(origin: &Origin) -> Option<&'static str>
    ensures { option_copied result ≡ leaves_by origin.now via.Local }
{
    match origin {
        Origin::Host => Some("lo"),
        Origin::Link(_) => None,
    }
}

fn is_accept(verdict: Verdict) -> bool
    ensures { result ≡ is_accept verdict }
{
    match verdict {
        Verdict::Accept => true,
        _ => false,
    }
}

fn may_masquerade(verdict: Verdict, state: CtState, name: &str) -> bool
    ensures { result ≡ may_masquerade verdict state name.now }
{
    is_accept(verdict) && is_new(state) && name != "lo"
}

/// Whether a packet leaves with the host's own address: one that was accepted, begins a connection and leaves by an interface other
/// than `lo` may.
fn postrouted(
    alloc: Global,
    config: &Config,
    packet: &Packet,
    leaving: Option<&Via>,
    verdict: Verdict,
    logs: &mut Seq<LogLine>,
) -> Result<bool, Memory>
    ensures { IfOk result (λ found. (dnat : Option Dnat) → postrouted config.now verdict (leaves_by packet.now.origin (unwrap_or (option_copied leaving.entry) via.Local)) (standing packet.now dnat logs.old) ≡ (masked found (standing packet.now dnat logs.new)).now) }
{
    let Some(name) = leaves_by(&packet.origin, leaving) else {
        return Ok(false);
    };
    if !may_masquerade(verdict, packet.state, name) {
        return Ok(false);
    }
    masquerades(alloc, config, packet, name, logs)
}
