//! Ports and forward ports as calls spell them.
ghost use Rattle.std.specs.Prelude.{◌≡◌, Some};
ghost use Rattle.fw_act.specs.Acts.{Reads};
ghost use Rattle.fw_addr.specs.Addresses.{address};
ghost use Rattle.fw_addr.specs.Ports.{port};
ghost use Rattle.fw_addr.specs.Protocols.{port_proto};
ghost use Rattle.fw_zone_members.specs.Reading.{forward_of, ipv4_alone, is_said, one_port, port_of, port_with, to_address_of, to_port_of};

use fw_act::{Stop, refuse, require};
use fw_addr::{Addr, PortRange, read_addr, read_port_proto, read_ports};
use fw_model::{Code, Forward, Port};
use fw_text::read_number;
use std::alloc::Global;

/// The port that two arguments spell.
pub fn read_port(alloc: Global, port: &str, protocol: &str) -> Result<Port, Stop>
    ensures { Reads result (port_of port.now protocol.now) }
{
    match read_ports(port) {
        Ok(range) => read_protocol_of(alloc, range, protocol),
        Err(_) => Err(Stop::Refused(refuse(alloc, Code::InvalidPort, port)?)),
    }
}

fn read_protocol_of(alloc: Global, range: PortRange, protocol: &str) -> Result<Port, Stop>
    ensures { Reads result (port_with range protocol.now (port_proto protocol.now)) }
{
    match read_port_proto(protocol) {
        Ok(proto) => Ok(Port { range, proto }),
        Err(_) => Err(Stop::Refused(refuse(alloc, Code::InvalidProtocol, protocol)?)),
    }
}

/// The forward port that four arguments spell; an empty port or address to which packets go is none, and one of them is said.
#[tactic(auto, unfolding(crate::specs::Reading::forward_of))]
pub fn read_forward(
    alloc: Global,
    port: &str,
    protocol: &str,
    to_port: &str,
    to_address: &str,
) -> Result<Forward, Stop>
    ensures { Reads result (forward_of port.now protocol.now to_port.now to_address.now) }
{
    let port = read_port(alloc, port, protocol)?;
    require(
        alloc,
        is_said(to_port, to_address),
        Code::InvalidForward,
        to_port,
    )?;
    let to_port = read_to_port(alloc, to_port)?;
    let to_addr = read_to_address(alloc, to_address)?;
    Ok(Forward {
        port,
        to_port,
        to_addr,
    })
}

/// Whether something is said of where packets go.
fn is_said(to_port: &str, to_address: &str) -> bool
    ensures { result ≡ is_said to_port.now to_address.now }
{
    !to_port.is_empty() || !to_address.is_empty()
}

fn read_to_port(alloc: Global, text: &str) -> Result<Option<u16>, Stop>
    ensures { Reads result (to_port_of text.now) }
{
    if text.is_empty() {
        Ok(None)
    } else {
        read_one_port(alloc, text)
    }
}

fn read_one_port(alloc: Global, text: &str) -> Result<Option<u16>, Stop>
    ensures { Reads result (one_port text.now (port text.now)) }
{
    match number_of(text) {
        Some(number) => Ok(Some(number)),
        None => Err(Stop::Refused(refuse(alloc, Code::InvalidForward, text)?)),
    }
}

/// A port's number.
fn number_of(text: &str) -> Option<u16>
    ensures { result ≡ port text.now }
{
    let number = read_number(text.as_bytes(), u64::from(u16::MAX))?;
    Some(number as u16)
}

fn read_to_address(alloc: Global, text: &str) -> Result<Option<Addr>, Stop>
    ensures { Reads result (to_address_of text.now) }
{
    if text.is_empty() {
        Ok(None)
    } else {
        read_ipv4(alloc, text)
    }
}

fn read_ipv4(alloc: Global, text: &str) -> Result<Option<Addr>, Stop>
    ensures { Reads result (ipv4_alone text.now (address text.now)) }
{
    match read_addr(text) {
        Ok(address) => ipv4_of(alloc, text, address),
        Err(_) => Err(Stop::Refused(refuse(alloc, Code::InvalidAddr, text)?)),
    }
}

fn ipv4_of(alloc: Global, text: &str, address: Addr) -> Result<Option<Addr>, Stop>
    ensures { Reads result (ipv4_alone text.now (Some address)) }
{
    match address {
        Addr::V4(number) => Ok(Some(Addr::V4(number))),
        Addr::V6(_) => Err(Stop::Refused(refuse(alloc, Code::InvalidAddr, text)?)),
    }
}
