//! The printed form of matches.
ghost use Rattle.std.specs.Prelude.{◌≡◌, ◌++◌, OnOk, string_bytes};
ghost use Rattle.nf_rules.specs.Matches.{icmp_word, interface_text, ip_word, match_text, selector, value};

use crate::{Match, Test};
use fw_addr::{Family, Iface};
use fw_base::Memory;

/// Appends a match: what it looks at, `!= ` where it is inverted, and the value.
pub fn push_match(out: &mut String, tested: &Match) -> Result<(), Memory>
    ensures { OnOk result (string_bytes out.new ≡ string_bytes out.old ++ match_text tested.now) }
{
    push_selector(out, &tested.test)?;
    if tested.not {
        out.push_str("!= ")?;
    }
    push_value(out, &tested.test)
}

fn push_selector(out: &mut String, test: &Test) -> Result<(), Memory>
    ensures { OnOk result (string_bytes out.new ≡ string_bytes out.old ++ selector test.now) }
{
    match test {
        Test::Family(_) => out.push_str("meta nfproto ")?,
        Test::Src(net) => write!(out, "{} saddr ", ip_word(net.addr().family()))?,
        Test::Dst(net) => write!(out, "{} daddr ", ip_word(net.addr().family()))?,
        Test::SrcSet(_) => out.push_str("saddr ")?,
        Test::DstSet(_) => out.push_str("daddr ")?,
        Test::SrcMac(_) => out.push_str("ether saddr ")?,
        Test::SrcMacSet(_) => out.push_str("ether saddr ")?,
        Test::In(_) => out.push_str("iifname ")?,
        Test::Out(_) => out.push_str("oifname ")?,
        Test::Proto(_) => out.push_str("meta l4proto ")?,
        Test::Sport(protocol, _) => write!(out, "{protocol} sport ")?,
        Test::Dport(protocol, _) => write!(out, "{protocol} dport ")?,
        Test::DportSet(protocol, _) => write!(out, "{protocol} dport ")?,
        Test::Icmp(family, _) => write!(out, "{} type ", icmp_word(*family))?,
        Test::State(_) => out.push_str("ct state ")?,
        Test::Dnat => out.push_str("ct status ")?,
        Test::Pkt(_) => out.push_str("meta pkttype ")?,
        Test::Limit(_) => out.push_str("limit rate ")?,
    }
    Ok(())
}

fn push_value(out: &mut String, test: &Test) -> Result<(), Memory>
    ensures { OnOk result (string_bytes out.new ≡ string_bytes out.old ++ value test.now) }
{
    match test {
        Test::Family(family) => write!(out, "{family}")?,
        Test::Src(net) => write!(out, "{net}")?,
        Test::Dst(net) => write!(out, "{net}")?,
        Test::SrcSet(set) => write!(out, "@{set}")?,
        Test::DstSet(set) => write!(out, "@{set}")?,
        Test::SrcMac(mac) => write!(out, "{mac}")?,
        Test::SrcMacSet(set) => write!(out, "@{set}")?,
        Test::In(interface) => push_interface(out, interface)?,
        Test::Out(interface) => push_interface(out, interface)?,
        Test::Proto(protocol) => write!(out, "{protocol}")?,
        Test::Sport(_, ports) => write!(out, "{ports}")?,
        Test::Dport(_, ports) => write!(out, "{ports}")?,
        Test::DportSet(_, set) => write!(out, "@{set}")?,
        Test::Icmp(_, number) => write!(out, "{number}")?,
        Test::State(state) => write!(out, "{state}")?,
        Test::Dnat => out.push_str("dnat")?,
        Test::Pkt(kind) => write!(out, "{kind}")?,
        Test::Limit(limit) => write!(out, "{limit}")?,
    }
    Ok(())
}

/// Appends an interface in quotes, with `*` for a `+` at its end.
pub fn push_interface(out: &mut String, interface: &Iface) -> Result<(), Memory>
    ensures { OnOk result (string_bytes out.new ≡ string_bytes out.old ++ interface_text interface.now) }
{
    let name = interface.as_str();
    match name.strip_suffix('+') {
        Some(front) => write!(out, "\"{front}*\"")?,
        None => write!(out, "\"{name}\"")?,
    }
    Ok(())
}

fn ip_word(family: Family) -> &'static str
    ensures { result.now ≡ ip_word family }
{
    match family {
        Family::V4 => "ip",
        Family::V6 => "ip6",
    }
}

fn icmp_word(family: Family) -> &'static str
    ensures { result.now ≡ icmp_word family }
{
    match family {
        Family::V4 => "icmp",
        Family::V6 => "icmpv6",
    }
}
