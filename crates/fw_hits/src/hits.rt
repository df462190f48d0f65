//! Which packets a setting is about.
ghost use Rattle.std.specs.Prelude.{◌≡◌, ◌==◌};
ghost use Rattle.std.specs.List.{list_any};
ghost use Rattle.fw_model.specs.Ports.{port_matches};
ghost use Rattle.fw_hits.specs.Plain.{hits_icmp, is_icmp, is_icmpv4, is_icmpv6, is_ipv4, is_type};
ghost use Rattle.fw_hits.specs.Services.{source_port_matches};

use crate::sources::is_v4;
use fw_addr::{ICMP, ICMPV6, Proto, icmp_numbers};
use fw_base::Text;
use fw_model::{Packet, Port};

fn is_icmpv4(packet: &Packet) -> bool
    ensures { result ≡ is_icmpv4 packet.now }
{
    packet.proto.0 == ICMP && is_v4(packet.src)
}

fn is_icmpv6(packet: &Packet) -> bool
    ensures { result ≡ is_icmpv6 packet.now }
{
    packet.proto.0 == ICMPV6 && !is_v4(packet.src)
}

/// Whether a packet is of ICMP in IPv4, or of ICMPv6 in IPv6.
pub fn is_icmp(packet: &Packet) -> bool
    ensures { result ≡ is_icmp packet.now }
{
    is_icmpv4(packet) || is_icmpv6(packet)
}

fn is_type(number: Option<u8>, packet: &Packet) -> bool
    ensures { result ≡ is_type number packet.now }
{
    match number {
        None => false,
        Some(number) => packet.icmp_type == number,
    }
}

/// Whether a packet has the ICMP type of a name.
pub fn hits_icmp(name: &str, packet: &Packet) -> bool
    ensures { result ≡ hits_icmp name.now packet.now }
{
    match icmp_numbers(name) {
        None => false,
        Some(numbers) => {
            (is_icmpv4(packet) && is_type(numbers.v4, packet))
                || (is_icmpv6(packet) && is_type(numbers.v6, packet))
        }
    }
}

/// Whether a packet has the protocol, and a destination port in the range.
pub fn port_matches(port: &Port, packet: &Packet) -> bool
    ensures { result ≡ port_matches port.now packet.now }
{
    packet.proto == port.proto.proto() && port.range.contains(packet.dport)
}

/// Whether a packet has the protocol, and a source port in the range.
pub fn source_port_matches(port: &Port, packet: &Packet) -> bool
    ensures { result ≡ source_port_matches port.now packet.now }
{
    packet.proto == port.proto.proto() && port.range.contains(packet.sport)
}

/// Whether one of some ports matches.
pub fn any_port(ports: &[Port], packet: &Packet) -> bool
    ensures { result ≡ list_any (λ port. port_matches port packet.now) ports.now }
{
    ports.iter().any(|port| port_matches(port, packet))
}

/// Whether a packet is of one of some protocols.
pub fn any_protocol(protocols: &[Proto], packet: &Packet) -> bool
    ensures { result ≡ list_any (λ protocol. packet.now.proto == protocol) protocols.now }
{
    protocols.iter().any(|protocol| packet.proto == *protocol)
}

/// Whether one of some source ports matches.
pub fn any_source_port(ports: &[Port], packet: &Packet) -> bool
    ensures { result ≡ list_any (λ port. source_port_matches port packet.now) ports.now }
{
    ports.iter().any(|port| source_port_matches(port, packet))
}

/// Whether a packet has one of some ICMP types.
pub fn any_icmp(names: &[Text], packet: &Packet) -> bool
    ensures { result ≡ list_any (λ name. hits_icmp name packet.now) names.now }
{
    names.iter().any(|name| hits_icmp(name.as_str(), packet))
}
