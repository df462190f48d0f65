//! Packets by words, and what becomes of them.
use fw_addr::{Addr, CtState, Net, PktType, Proto, TCP, UDP, read_net};
use fw_base::{Memory, Seq, Text};
use fw_model::{Origin, Outcome, Packet, Verdict, Via};
use std::alloc::{AllocError, Global};

/// A packet from 10.0.0.1 to 10.0.0.2, or of IPv6 from 2001:db8::1 to 2001:db8::2, by its origin, its way, its protocol and its kind.
pub fn packet_of(
    alloc: Global,
    from: &str,
    to: &str,
    proto: &str,
    kind: &str,
) -> Result<Packet, Memory> {
    Ok(Packet {
        origin: origin_of(alloc, from)?,
        src: address_of(kind, 1),
        dst: address_of(kind, 2),
        mac: None,
        proto: Proto(if proto == "tcp" { TCP } else { UDP }),
        sport: 1,
        dport: 1,
        icmp_type: 0,
        icmp_code: 0,
        state: state_of(kind),
        dnat: false,
        pkt: PktType::Unicast,
        mark: 7,
        limits: Seq::new(alloc),
        routes: routes_of(alloc, to)?,
    })
}

fn origin_of(alloc: Global, from: &str) -> Result<Origin, Memory> {
    if from == "host" {
        Ok(Origin::Host)
    } else {
        Ok(Origin::Link(Text::of(alloc, from)?))
    }
}

fn address_of(kind: &str, host: u8) -> Addr {
    if kind == "v6" {
        Addr::V6(0x2001_0db8_0000_0000_0000_0000_0000_0000 | u128::from(host))
    } else {
        Addr::V4(0x0a00_0000 | u32::from(host))
    }
}

fn state_of(kind: &str) -> CtState {
    match kind {
        "established" => CtState::Established,
        "related" => CtState::Related,
        _ => CtState::New,
    }
}

fn routes_of(alloc: Global, to: &str) -> Result<Seq<(Net, Via)>, Memory> {
    let mut routes = Seq::new(alloc);
    if to != "local" {
        let (net, link) = route_of(to);
        routes.push((net, Via::Link(Text::of(alloc, link)?)))?;
    }
    Ok(routes)
}

/// A net and a link, or all of IPv4 and a link.
fn route_of(to: &str) -> (Net, &str) {
    match to.split_once('>') {
        Some((net, link)) => (net_of(net), link),
        None => (Net::new(Addr::V4(0), 0), to),
    }
}

/// The net of a text, or all of IPv4.
pub fn net_of(text: &str) -> Net {
    match read_net(text) {
        Ok(net) => net,
        Err(_) => Net::new(Addr::V4(0), 0),
    }
}

/// The outcome in words: its verdict, its mark, its translation, whether it is masqueraded, and the prefixes of its lines.
pub fn outcome_text(alloc: Global, outcome: &Outcome) -> Result<String, AllocError> {
    let mut text = String::new(alloc);
    write!(
        &mut text,
        "{} mark={}",
        verdict_word(outcome.verdict),
        outcome.mark
    )?;
    if let Some(dnat) = outcome.dnat {
        write!(&mut text, " dnat={dnat}")?;
    }
    if outcome.masquerade {
        write!(&mut text, " masquerade")?;
    }
    for line in outcome.logs.as_slice() {
        write!(&mut text, " {}", line.prefix)?;
    }
    Ok(text)
}

/// The verdict in a word.
pub fn verdict_word(verdict: Verdict) -> &'static str {
    match verdict {
        Verdict::Accept => "accept",
        Verdict::Drop => "drop",
        Verdict::Reject(_) => "reject",
    }
}
