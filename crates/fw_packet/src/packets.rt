//! Reading the words of a packet.
ghost use Rattle.std.specs.Prelude.{◌≡◌, IsTrue, IfOk};
ghost use Rattle.fw_addr.specs.Protocols.{icmp_protocol, icmpv6_protocol};
ghost use Rattle.fw_addr.specs.Subnets.{family};
ghost use Rattle.fw_model.specs.Packets.{IsPacket};
ghost use Rattle.fw_words.specs.Keys.{texts};
ghost use Rattle.fw_words.specs.Reading.{Says};
ghost use Rattle.fw_packet.specs.Links.{is_plain};
ghost use Rattle.fw_packet.specs.Packets.{common_family, described, origin_of, packet_of};

use super::keys::are_known;
use super::value::{optional, repeated, required};
use fw_addr::{Addr, CtState, Family, ICMP, ICMPV6, Limit, Mac, Net, PktType, Proto};
use fw_base::Seq;
use fw_model::{Origin, Packet, Via};
use fw_words::LineError;
use std::alloc::Global;

/// Reads the packet that words describe, in any order: `in` or `host`, `src`, `dst` and `proto`, and where they are given `mac`,
/// `sport`, `dport`, `type`, `code`, `state`, `dnat`, `pkt`, `mark`, and any number of `limit` and `route`. Without its word a number
/// is 0, the state new, and the packet is addressed to the host alone.
///
/// BadLine: a word is unknown, lacking, given twice or has a bad value, or the addresses and the protocol aren't of one family.
#[tactic(auto, unfolding(crate::specs::Packets::packet_of))]
pub fn read_packet(alloc: Global, words: &[&str]) -> Result<Packet, LineError>
    ensures says { Says result (packet_of (texts words.now)) }
    ensures is_packet { IfOk result IsPacket }
    ensures plain_link { IfOk result (λ packet. IsTrue (is_plain packet.origin)) }
{
    if are_known(words) {
        read_described(alloc, words)
    } else {
        Err(LineError::BadLine)
    }
}

/// Reads the packet that words describe, whatever words there are besides.
#[tactic(auto, unfolding(crate::specs::Packets::described))]
fn read_described(alloc: Global, words: &[&str]) -> Result<Packet, LineError>
    ensures says { Says result (described (texts words.now)) }
    ensures is_packet { IfOk result IsPacket }
    ensures plain_link { IfOk result (λ packet. IsTrue (is_plain packet.origin)) }
{
    let src: Addr = required(alloc, "src=", words)?;
    let dst: Addr = required(alloc, "dst=", words)?;
    let proto: Proto = required(alloc, "proto=", words)?;
    common_family(&src, &dst, proto.0)?;
    let mac: Option<Mac> = optional(alloc, "mac=", words)?;
    let sport: Option<u16> = optional(alloc, "sport=", words)?;
    let dport: Option<u16> = optional(alloc, "dport=", words)?;
    let icmp_type: Option<u8> = optional(alloc, "type=", words)?;
    let icmp_code: Option<u8> = optional(alloc, "code=", words)?;
    let state: Option<CtState> = optional(alloc, "state=", words)?;
    let dnat: Option<bool> = optional(alloc, "dnat", words)?;
    let pkt: Option<PktType> = optional(alloc, "pkt=", words)?;
    let mark: Option<u32> = optional(alloc, "mark=", words)?;
    let origin = read_origin(alloc, words)?;
    let limits: Seq<Limit> = repeated(alloc, "limit=", words)?;
    let routes: Seq<(Net, Via)> = repeated(alloc, "route=", words)?;
    Ok(Packet {
        origin,
        src,
        dst,
        mac,
        proto,
        sport: sport.unwrap_or(0),
        dport: dport.unwrap_or(0),
        icmp_type: icmp_type.unwrap_or(0),
        icmp_code: icmp_code.unwrap_or(0),
        state: state.unwrap_or(CtState::New),
        dnat: dnat.unwrap_or(false),
        pkt: pkt.unwrap_or(PktType::Unicast),
        mark: mark.unwrap_or(0),
        limits,
        routes,
    })
}

/// Where a packet comes from: `in` names the interface that it came by, and `host` says that it is the host's own. BadLine: both
/// stand there, or neither does.
#[tactic(auto, unfolding(crate::specs::Packets::origin_of))]
fn read_origin(alloc: Global, words: &[&str]) -> Result<Origin, LineError>
    ensures says { Says result (origin_of (texts words.now)) }
    ensures plain { IfOk result (λ origin. IsTrue (is_plain origin)) }
{
    let host: Option<bool> = optional(alloc, "host", words)?;
    let link: Option<Origin> = optional(alloc, "in=", words)?;
    match (host, link) {
        (None, Some(link)) => Ok(link),
        (Some(_), None) => Ok(Origin::Host),
        _ => Err(LineError::BadLine),
    }
}

/// The family of two addresses and a protocol's number. BadLine: they have none.
fn common_family(src: &Addr, dst: &Addr, protocol: u8) -> Result<Family, LineError>
    ensures says { Says result (common_family src.now dst.now protocol) }
    ensures one_family { IfOk result (λ _. family src.now ≡ family dst.now) }
    ensures icmp { IfOk result (λ _. protocol ≡ icmp_protocol → family src.now ≡ Family.V4) }
    ensures icmpv6 { IfOk result (λ _. protocol ≡ icmpv6_protocol → family src.now ≡ Family.V6) }
{
    match (src, dst) {
        (Addr::V4(_), Addr::V4(_)) if protocol != ICMPV6 => Ok(Family::V4),
        (Addr::V6(_), Addr::V6(_)) if protocol != ICMP => Ok(Family::V6),
        _ => Err(LineError::BadLine),
    }
}
