//! Tests by words.
use fw_addr::{
    CtState, Family, Limit, PktType, PortProto, Unit, read_iface, read_mac, read_net,
    read_port_proto, read_ports, read_proto,
};
use fw_base::Text;
use nf_rules::Test;
use std::alloc::Global;

/// The test of some words, as `saddr 10.0.0.0/8` and `dport tcp 80`; None where they are none.
pub fn test_of(alloc: Global, words: &str) -> Option<Test> {
    let (name, value) = words.split_once(' ').unwrap_or((words, ""));
    match name {
        "family" => Some(Test::Family(family_of(value)?)),
        "saddr" => Some(Test::Src(read_net(value).ok()?)),
        "daddr" => Some(Test::Dst(read_net(value).ok()?)),
        "saddr-set" => Some(Test::SrcSet(Text::of(alloc, value).ok()?)),
        "daddr-set" => Some(Test::DstSet(Text::of(alloc, value).ok()?)),
        "ether" => Some(Test::SrcMac(read_mac(value).ok()?)),
        "ether-set" => Some(Test::SrcMacSet(Text::of(alloc, value).ok()?)),
        "iifname" => Some(Test::In(read_iface(value).ok()?)),
        "oifname" => Some(Test::Out(read_iface(value).ok()?)),
        "l4proto" => Some(Test::Proto(read_proto(value).ok()?)),
        "state" => Some(Test::State(state_of(value)?)),
        "dnat" => Some(Test::Dnat),
        "pkttype" => Some(Test::Pkt(type_of(value)?)),
        "limit" => Some(Test::Limit(limit_of(value)?)),
        _ => of_two_words(alloc, name, value),
    }
}

fn of_two_words(alloc: Global, name: &str, words: &str) -> Option<Test> {
    let (first, second) = words.split_once(' ')?;
    match name {
        "sport" => Some(Test::Sport(proto_of(first)?, read_ports(second).ok()?)),
        "dport" => Some(Test::Dport(proto_of(first)?, read_ports(second).ok()?)),
        "dport-set" => Some(Test::DportSet(proto_of(first)?, Text::of(alloc, second).ok()?)),
        "icmp" => Some(Test::Icmp(family_of(first)?, second.parse::<u8>().ok()?)),
        _ => None,
    }
}

fn family_of(word: &str) -> Option<Family> {
    match word {
        "ipv4" => Some(Family::V4),
        "ipv6" => Some(Family::V6),
        _ => None,
    }
}

fn proto_of(word: &str) -> Option<PortProto> {
    read_port_proto(word).ok()
}

fn state_of(word: &str) -> Option<CtState> {
    match word {
        "new" => Some(CtState::New),
        "established" => Some(CtState::Established),
        "related" => Some(CtState::Related),
        "invalid" => Some(CtState::Invalid),
        _ => None,
    }
}

fn type_of(word: &str) -> Option<PktType> {
    match word {
        "unicast" => Some(PktType::Unicast),
        "broadcast" => Some(PktType::Broadcast),
        "multicast" => Some(PktType::Multicast),
        _ => None,
    }
}

/// So many a minute or an hour.
fn limit_of(word: &str) -> Option<Limit> {
    let (count, unit) = match word.split_once('/')? {
        (count, "minute") => (count, Unit::Minute),
        (count, "hour") => (count, Unit::Hour),
        _ => return None,
    };
    let count = count.parse::<u16>().ok()?;
    Some(Limit { count, unit })
}
