//! When the tests of rules hold of a packet.
ghost use Rattle.std.specs.Prelude.{◌≡◌};
ghost use Rattle.fw_addr.specs.Subnets.{family};
ghost use Rattle.nf_eval.specs.Rewrites.{rewritten};
ghost use Rattle.nf_eval.specs.Tests.{came_in_by, icmp_number, is_from, is_from_set, is_same_family, is_same_state, is_same_type, match_holds, test_holds};

use crate::rewrite::Rewrite;
use crate::sets::{holds_address, holds_mac, holds_port};
use fw_addr::{Addr, CtState, Family, ICMP, ICMPV6, Iface, Mac, PktType};
use fw_limit::is_within;
use fw_model::{Origin, Packet};
use nf_rules::{Match, NfSet, Test};

/// Whether the entry stands for the interface by which a packet came.
fn came_in_by(entry: &Iface, origin: &Origin) -> bool
    ensures { result ≡ came_in_by entry.now origin.now }
{
    match origin {
        Origin::Host => false,
        Origin::Link(name) => entry.matches(name.as_str()),
    }
}

/// Whether an address is of a family.
fn is_of(address: Addr, wanted: Family) -> bool
    ensures { result ≡ is_same_family (family address) wanted }
{
    address.family() == wanted
}

fn is_same_state(one: CtState, other: CtState) -> bool
    ensures { result ≡ is_same_state one other }
{
    one == other
}

fn is_same_type(one: PktType, other: PktType) -> bool
    ensures { result ≡ is_same_type one other }
{
    one == other
}

/// Whether the sender has a hardware address.
fn is_from(address: Mac, mac: Option<Mac>) -> bool
    ensures { result ≡ is_from address mac }
{
    match mac {
        Some(mac) => mac == address,
        None => false,
    }
}

fn is_from_set(sets: &[NfSet], name: &str, mac: Option<Mac>) -> bool
    ensures { result ≡ is_from_set sets.now name.now mac }
{
    match mac {
        Some(mac) => holds_mac(sets, name, mac),
        None => false,
    }
}

/// The number of a family's ICMP.
fn icmp_number(family: Family) -> u8
    ensures { result ≡ icmp_number family }
{
    match family {
        Family::V4 => ICMP,
        Family::V6 => ICMPV6,
    }
}

/// Whether a test holds of a packet with these parts.
fn test_holds(sets: &[NfSet], packet: &Packet, parts: &Rewrite, test: &Test) -> bool
    ensures { result ≡ test_holds sets.now (rewritten parts.now packet.now) test.now }
{
    match test {
        Test::Family(family) => is_of(packet.src, *family),
        Test::Proto(protocol) => packet.proto == *protocol,
        Test::In(entry) => came_in_by(entry, &packet.origin),
        Test::Pkt(kind) => is_same_type(packet.pkt, *kind),
        Test::Out(_) => false,
        Test::Src(net) => net.contains(&packet.src),
        Test::Dst(net) => net.contains(&parts.dst),
        Test::SrcSet(name) => holds_address(sets, name.as_str(), &packet.src),
        Test::DstSet(name) => holds_address(sets, name.as_str(), &parts.dst),
        Test::SrcMac(address) => is_from(*address, packet.mac),
        Test::SrcMacSet(name) => is_from_set(sets, name.as_str(), packet.mac),
        Test::Sport(proto, range) => packet.proto == proto.proto() && range.contains(packet.sport),
        Test::Dport(proto, range) => packet.proto == proto.proto() && range.contains(parts.dport),
        Test::DportSet(proto, name) => {
            packet.proto == proto.proto() && holds_port(sets, name.as_str(), parts.dport)
        }
        Test::Icmp(family, number) => {
            packet.proto.0 == icmp_number(*family) && packet.icmp_type == *number
        }
        Test::State(state) => is_same_state(packet.state, *state),
        Test::Dnat => parts.dnat,
        Test::Limit(limit) => is_within(limit, packet.limits.as_slice()),
    }
}

/// Whether a test holds, or with `not` whether it doesn't, of a packet whose parts that rules rewrite are now these.
pub fn match_holds(sets: &[NfSet], packet: &Packet, parts: &Rewrite, tested: &Match) -> bool
    ensures { result ≡ match_holds sets.now (rewritten parts.now packet.now) tested.now }
{
    test_holds(sets, packet, parts, &tested.test) != tested.not
}
