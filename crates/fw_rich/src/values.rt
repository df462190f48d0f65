//! What single values say.
ghost use Rattle.std.specs.Prelude.{◌≡◌, Ok, Err, MatchResult};
ghost use Rattle.fw_text.specs.Names.{named};
ghost use Rattle.fw_addr.specs.Addresses.{address};
ghost use Rattle.fw_addr.specs.Nets.{net};
ghost use Rattle.fw_addr.specs.Ports.{port};
ghost use Rattle.fw_addr.specs.Protocols.{proto};
ghost use Rattle.fw_rich.specs.Names.{levels, reject_types};
ghost use Rattle.fw_rich.specs.Values.{bad, icmp_said, ipset_said, level_said, limit_said, mac_said, mark_said, net_said, port_proto_said, ports_said, prefix_said, priority_said, proto_said, reject_said, service_said, to_addr_said, to_port_said};

use super::error::BadValue;
use super::numbers::{MarkBits, read_mark, read_priority};
use super::token::ValueText;
use fw_addr::{
    Addr, Level, Limit, Mac, Net, PortProto, PortRange, Proto, RejectType, icmp_numbers,
    is_well_formed_name, read_addr, read_mac, read_net, read_port_proto, read_ports, read_proto,
};
use fw_limit::read_limit;
use fw_model::Code;
use fw_text::read_number;

fn bad(code: Code, value: &ValueText) -> BadValue
    ensures { result ≡ bad code value.now }
{
    BadValue {
        code,
        place: value.place,
    }
}

/// A priority.
#[tactic(auto, unfolding(crate::specs::Values::priority_said))]
pub fn priority_said(value: &ValueText) -> Result<i32, BadValue>
    ensures { result ≡ priority_said value.now }
{
    read_priority(value.text).ok_or(bad(Code::InvalidPriority, value))
}

/// An address or a net.
#[tactic(auto, unfolding(crate::specs::Values::net_said))]
pub fn net_said(value: &ValueText) -> Result<Net, BadValue>
    ensures { result ≡ net_said value.now }
{
    net_in(value.text).ok_or(bad(Code::InvalidAddr, value))
}

/// A hardware address.
#[tactic(auto, unfolding(crate::specs::Values::mac_said), using(crate::proofs::Said::said_so, crate::proofs::Said::said_not))]
pub fn mac_said(value: &ValueText) -> Result<Mac, BadValue>
    ensures { result ≡ mac_said value.now }
{
    match read_mac(value.text) {
        Ok(found) => Ok(found),
        Err(_) => Err(bad(Code::InvalidAddr, value)),
    }
}

/// A port or a range of ports.
#[tactic(auto, unfolding(crate::specs::Values::ports_said), using(crate::proofs::Said::said_so, crate::proofs::Said::said_not))]
pub fn ports_said(value: &ValueText) -> Result<PortRange, BadValue>
    ensures { result ≡ ports_said value.now }
{
    match read_ports(value.text) {
        Ok(found) => Ok(found),
        Err(_) => Err(bad(Code::InvalidPort, value)),
    }
}

/// A protocol with ports.
#[tactic(auto, unfolding(crate::specs::Values::port_proto_said), using(crate::proofs::Said::said_so, crate::proofs::Said::said_not))]
pub fn port_proto_said(value: &ValueText) -> Result<PortProto, BadValue>
    ensures { result ≡ port_proto_said value.now }
{
    match read_port_proto(value.text) {
        Ok(found) => Ok(found),
        Err(_) => Err(bad(Code::InvalidProtocol, value)),
    }
}

/// A protocol.
#[tactic(auto, unfolding(crate::specs::Values::proto_said))]
pub fn proto_said(value: &ValueText) -> Result<Proto, BadValue>
    ensures { result ≡ proto_said value.now }
{
    proto_in(value.text).ok_or(bad(Code::InvalidProtocol, value))
}

/// One port.
#[tactic(auto, unfolding(crate::specs::Values::to_port_said))]
pub fn to_port_said(value: &ValueText) -> Result<u16, BadValue>
    ensures { result ≡ to_port_said value.now }
{
    read_port(value.text).ok_or(bad(Code::InvalidForward, value))
}

/// An address.
#[tactic(auto, unfolding(crate::specs::Values::to_addr_said))]
pub fn to_addr_said(value: &ValueText) -> Result<Addr, BadValue>
    ensures { result ≡ to_addr_said value.now }
{
    addr_in(value.text).ok_or(bad(Code::InvalidAddr, value))
}

/// The level of a log line.
#[tactic(auto, unfolding(crate::specs::Values::level_said))]
pub fn level_said(value: &ValueText) -> Result<Level, BadValue>
    ensures { result ≡ level_said value.now }
{
    read_level(value.text).ok_or(bad(Code::InvalidValue, value))
}

/// A limit.
#[tactic(auto, unfolding(crate::specs::Values::limit_said))]
pub fn limit_said(value: &ValueText) -> Result<Limit, BadValue>
    ensures { result ≡ limit_said value.now }
{
    read_limit(value.text).ok_or(bad(Code::InvalidValue, value))
}

/// The type of a reject.
#[tactic(auto, unfolding(crate::specs::Values::reject_said))]
pub fn reject_said(value: &ValueText) -> Result<RejectType, BadValue>
    ensures { result ≡ reject_said value.now }
{
    read_reject(value.text).ok_or(bad(Code::InvalidValue, value))
}

/// The name of an ipset.
#[tactic(auto, unfolding(crate::specs::Values::ipset_said, crate::specs::Names::name))]
pub fn ipset_said<'a>(value: &ValueText<'a>) -> Result<&'a str, BadValue>
    ensures { MatchResult result (λ text. ipset_said value.now ≡ Ok text.now) (λ bad. ipset_said value.now ≡ Err bad) }
{
    if is_well_formed_name(value.text) {
        Ok(value.text)
    } else {
        Err(bad(Code::InvalidIpset, value))
    }
}

/// The name of a service.
#[tactic(auto, unfolding(crate::specs::Values::service_said, crate::specs::Names::name))]
pub fn service_said<'a>(value: &ValueText<'a>) -> Result<&'a str, BadValue>
    ensures { MatchResult result (λ text. service_said value.now ≡ Ok text.now) (λ bad. service_said value.now ≡ Err bad) }
{
    if is_well_formed_name(value.text) {
        Ok(value.text)
    } else {
        Err(bad(Code::InvalidService, value))
    }
}

/// The name of an ICMP type.
#[tactic(auto, unfolding(crate::specs::Values::icmp_said, crate::specs::Names::icmp_name))]
pub fn icmp_said<'a>(value: &ValueText<'a>) -> Result<&'a str, BadValue>
    ensures { MatchResult result (λ text. icmp_said value.now ≡ Ok text.now) (λ bad. icmp_said value.now ≡ Err bad) }
{
    if icmp_numbers(value.text).is_some() {
        Ok(value.text)
    } else {
        Err(bad(Code::InvalidIcmptype, value))
    }
}

/// What a log line begins with.
#[tactic(auto, unfolding(crate::specs::Values::prefix_said, crate::specs::Names::prefix))]
pub fn prefix_said<'a>(value: &ValueText<'a>) -> Result<&'a str, BadValue>
    ensures { MatchResult result (λ text. prefix_said value.now ≡ Ok text.now) (λ bad. prefix_said value.now ≡ Err bad) }
{
    if value.text.len() <= 127 {
        Ok(value.text)
    } else {
        Err(bad(Code::InvalidValue, value))
    }
}

/// A mark.
#[tactic(auto, unfolding(crate::specs::Values::mark_said))]
pub fn mark_said(value: &ValueText) -> Result<MarkBits, BadValue>
    ensures { MatchResult result (λ bits. mark_said value.now ≡ Ok (bits.value, bits.mask)) (λ bad. mark_said value.now ≡ Err bad) }
{
    match read_mark(value.text) {
        Some(bits) => Ok(bits),
        None => Err(bad(Code::InvalidValue, value)),
    }
}

fn read_port(text: &str) -> Option<u16>
    ensures { result ≡ port text.now }
{
    let number = read_number(text.as_bytes(), u64::from(u16::MAX))?;
    Some(number as u16)
}

fn read_level(text: &str) -> Option<Level>
    ensures { result ≡ named levels text.now }
{
    match text {
        "emerg" => Some(Level::Emerg),
        "alert" => Some(Level::Alert),
        "crit" => Some(Level::Crit),
        "error" => Some(Level::Error),
        "warning" => Some(Level::Warning),
        "notice" => Some(Level::Notice),
        "info" => Some(Level::Info),
        "debug" => Some(Level::Debug),
        _ => None,
    }
}

fn read_reject(text: &str) -> Option<RejectType>
    ensures { result ≡ named reject_types text.now }
{
    match text {
        "icmp-net-unreachable" => Some(RejectType::IcmpNetUnreachable),
        "icmp-host-unreachable" => Some(RejectType::IcmpHostUnreachable),
        "icmp-port-unreachable" => Some(RejectType::IcmpPortUnreachable),
        "icmp-proto-unreachable" => Some(RejectType::IcmpProtoUnreachable),
        "icmp-net-prohibited" => Some(RejectType::IcmpNetProhibited),
        "icmp-host-prohibited" => Some(RejectType::IcmpHostProhibited),
        "icmp-admin-prohibited" => Some(RejectType::IcmpAdminProhibited),
        "icmp6-no-route" => Some(RejectType::Icmp6NoRoute),
        "icmp6-addr-unreachable" => Some(RejectType::Icmp6AddrUnreachable),
        "icmp6-port-unreachable" => Some(RejectType::Icmp6PortUnreachable),
        "icmp6-adm-prohibited" => Some(RejectType::Icmp6AdmProhibited),
        "tcp-reset" => Some(RejectType::TcpReset),
        _ => None,
    }
}

fn net_in(text: &str) -> Option<Net>
    ensures { result ≡ net text.now }
{
    match read_net(text) {
        Ok(found) => Some(found),
        Err(_) => None,
    }
}

fn proto_in(text: &str) -> Option<Proto>
    ensures { result ≡ proto text.now }
{
    match read_proto(text) {
        Ok(found) => Some(found),
        Err(_) => None,
    }
}

fn addr_in(text: &str) -> Option<Addr>
    ensures { result ≡ address text.now }
{
    match read_addr(text) {
        Ok(found) => Some(found),
        Err(_) => None,
    }
}
