//! Lines of denied packets (firewalld.conf(5), `LogDenied`).
ghost use Rattle.std.specs.Prelude.{◌≡◌, ◌++◌, ◌∷◌, [], IfOk};
ghost use Rattle.fw_model.specs.declared.config.LogDenied.TheVariants as denied;
ghost use Rattle.fw_verdict.specs.Denied.{denial, is_told};
ghost use Rattle.fw_verdict.specs.Given.{denial_given};

use fw_addr::{Level, LogKind, LogLine, PktType};
use fw_base::{Memory, Seq, Text};
use fw_model::{Config, LogDenied, Packet};
use std::alloc::Global;

fn is_unicast(kind: PktType) -> bool
    ensures { result ≡ is_told denied.Unicast kind }
{
    match kind {
        PktType::Unicast => true,
        _ => false,
    }
}

fn is_broadcast(kind: PktType) -> bool
    ensures { result ≡ is_told denied.Broadcast kind }
{
    match kind {
        PktType::Broadcast => true,
        _ => false,
    }
}

fn is_multicast(kind: PktType) -> bool
    ensures { result ≡ is_told denied.Multicast kind }
{
    match kind {
        PktType::Multicast => true,
        _ => false,
    }
}

/// Whether denied packets that the link layer addressed so are told of.
fn is_told(told: LogDenied, kind: PktType) -> bool
    ensures { result ≡ is_told told kind }
{
    match told {
        LogDenied::Off => false,
        LogDenied::All => true,
        LogDenied::Unicast => is_unicast(kind),
        LogDenied::Broadcast => is_broadcast(kind),
        LogDenied::Multicast => is_multicast(kind),
    }
}

fn push_denial(prefix: Text, logs: &mut Seq<LogLine>) -> Result<(), Memory>
    ensures { IfOk result (λ _. logs.new ≡ logs.old ++ denial prefix ∷ []) }
{
    logs.push(LogLine {
        kind: LogKind::Deny,
        level: Level::Warning,
        prefix,
    })
}

/// Tells of a packet before it is denied, by a line that begins so.
pub fn tell(
    alloc: Global,
    config: &Config,
    packet: &Packet,
    prefix: &str,
    logs: &mut Seq<LogLine>,
) -> Result<(), Memory>
    ensures { IfOk result (λ _. logs.new ≡ logs.old ++ denial_given config.now packet.now prefix.now) }
{
    if !is_told(config.log_denied, packet.pkt) {
        return Ok(());
    }
    push_denial(Text::of(alloc, prefix)?, logs)
}

fn zone_prefix(alloc: Global, front: &str, zone: &Text, end: &str) -> Result<Text, Memory>
    ensures { IfOk result (λ made. made ≡ front.now ++ zone.now ++ end.now) }
{
    let string = format!(in alloc; "{front}{zone}{end}")?;
    Ok(Text::from_string(string))
}

/// Tells of a packet before a zone's target denies it, by a line with the zone's name.
pub fn tell_by_zone(
    alloc: Global,
    config: &Config,
    packet: &Packet,
    front: &str,
    zone: &Text,
    end: &str,
    logs: &mut Seq<LogLine>,
) -> Result<(), Memory>
    ensures { IfOk result (λ _. logs.new ≡ logs.old ++ denial_given config.now packet.now (front.now ++ zone.now ++ end.now)) }
{
    if !is_told(config.log_denied, packet.pkt) {
        return Ok(());
    }
    push_denial(zone_prefix(alloc, front, zone, end)?, logs)
}
