//! A rule for each test, and one for its opposite.
use anyhow::{Result, anyhow};
use fw_addr::{
    CtState, Family, Limit, PktType, PortProto, Proto, Unit, read_iface, read_mac, read_net,
    read_ports,
};
use fw_base::{Memory, Seq, Text};
use nf_rules::{Chain, Match, Rule, Test};
use std::alloc::Global;

pub fn chain(alloc: Global) -> Result<Chain> {
    let mut rules = Seq::new(alloc);
    let count = 27usize;
    for number in 0..count {
        rules.push(rule(alloc, false, test(alloc, number)?)?)?;
        rules.push(rule(alloc, true, test(alloc, number)?)?)?;
    }
    rules.push(all_three(alloc)?)?;
    Ok(Chain {
        name: Text::of(alloc, "tests")?,
        base: None,
        rules,
    })
}

fn rule(alloc: Global, not: bool, test: Test) -> Result<Rule, Memory> {
    let mut matches = Seq::new(alloc);
    matches.push(Match { not, test })?;
    Ok(Rule {
        matches,
        stmts: Seq::new(alloc),
    })
}

/// Three matches in a row, and no statement.
fn all_three(alloc: Global) -> Result<Rule> {
    let mut matches = Seq::new(alloc);
    for number in [0usize, 1, 3] {
        matches.push(Match {
            not: false,
            test: test(alloc, number)?,
        })?;
    }
    Ok(Rule {
        matches,
        stmts: Seq::new(alloc),
    })
}

fn test(alloc: Global, number: usize) -> Result<Test> {
    Ok(match number {
        0 => Test::Family(Family::V4),
        1 => Test::Src(read_net("10.0.0.0/8")?),
        2 => Test::Src(read_net("2001:db8::1")?),
        3 => Test::Dst(read_net("192.0.2.1")?),
        4 => Test::Dst(read_net("fe80::/64")?),
        5 => Test::SrcSet(Text::of(alloc, "ipset_a")?),
        6 => Test::DstSet(Text::of(alloc, "ipset_a")?),
        7 => Test::SrcMac(read_mac("00:1B:21:00:00:0A")?),
        8 => Test::SrcMacSet(Text::of(alloc, "ipset_m")?),
        9 => Test::In(read_iface("eth0")?),
        10 => Test::In(read_iface("eth+")?),
        11 => Test::Out(read_iface("eth0.5")?),
        12 => Test::Out(read_iface("wlan+")?),
        13 => Test::Proto(Proto(6)),
        14 => Test::Proto(Proto(99)),
        15 => Test::Sport(PortProto::Tcp, read_ports("80")?),
        16 => Test::Dport(PortProto::Udp, read_ports("1000-1010")?),
        17 => Test::Dport(PortProto::Sctp, read_ports("0")?),
        18 => Test::DportSet(PortProto::Dccp, Text::of(alloc, "ports_tcp")?),
        19 => Test::Icmp(Family::V4, 8),
        20 => Test::Icmp(Family::V6, 128),
        21 => Test::State(CtState::New),
        22 => Test::State(CtState::Invalid),
        23 => Test::Dnat,
        24 => Test::Pkt(PktType::Multicast),
        25 => Test::Limit(Limit {
            count: 3,
            unit: Unit::Minute,
        }),
        26 => Test::Family(Family::V6),
        _ => return Err(anyhow!("there is no test {number}")),
    })
}
