//! IP protocols: those with ports, and all of them by number.
ghost use Rattle.std.specs.Prelude.{◌≡◌, IfOk, Some};
ghost use Rattle.std.specs.Option.{ok_or, option_copied};
ghost use Rattle.fw_text.specs.Names.{name_of, named};
ghost use Rattle.fw_addr.specs.Protocols.{port_proto, port_proto_text, proto, proto_names, proto_number, proto_text};

use super::AddrError;
use super::laws::printed_protocols_are_read;
use fw_base::{Memory, Text};
use fw_text::read_number;
use std::alloc::Global;
use std::fmt;
use std::marker::Model;

/// The number of ICMP in an IP header, as IANA registers it.
pub const ICMP: u8 = 1;

/// The number of TCP in an IP header.
pub const TCP: u8 = 6;

/// The number of UDP in an IP header.
pub const UDP: u8 = 17;

/// The number of DCCP in an IP header.
pub const DCCP: u8 = 33;

/// The number of ICMPv6 in an IP header.
pub const ICMPV6: u8 = 58;

/// The number of SCTP in an IP header.
pub const SCTP: u8 = 132;

/// A transport protocol that has ports.
#[derive(Clone, Copy, Debug, PartialEq, Eq)]
pub enum PortProto {
    Tcp,
    Udp,
    Sctp,
    Dccp,
}

impl PortProto {
    /// The protocol's name.
    pub fn as_str(self) -> &'static str
        ensures { result.now ≡ port_proto_text self }
    {
        match self {
            PortProto::Tcp => "tcp",
            PortProto::Udp => "udp",
            PortProto::Sctp => "sctp",
            PortProto::Dccp => "dccp",
        }
    }

    /// The protocol by its number.
    pub fn proto(self) -> Proto
        ensures { result ≡ proto_number self }
    {
        Proto(match self {
            PortProto::Tcp => TCP,
            PortProto::Udp => UDP,
            PortProto::Sctp => SCTP,
            PortProto::Dccp => DCCP,
        })
    }
}

impl fmt::Display for PortProto {
    ghost use Rattle.std.specs.Prelude.{Some};
    ghost use Rattle.fw_addr.specs.Protocols.{port_proto_text};

    ghost output = { λ proto. Some (port_proto_text proto) };

    fn fmt<W: fmt::Write>(&self, f: &mut fmt::Formatter<W>) -> fmt::Result {
        f.write_str(self.as_str())
    }
}

/// An IP protocol by its number in IANA's registry. Contracts see the number.
#[derive(Clone, Copy, Debug, PartialEq, Eq)]
pub struct Proto(pub u8);

impl Model for Proto {
    ghost use Rattle.std.specs.Prelude.{ℕ};

    ghost Value = { ℕ };

    ghost view = { λ proto. proto.0 };

    ghost inverse = { λ number. record { 0 = number } };
}

impl fmt::Display for Proto {
    ghost use Rattle.std.specs.Prelude.{Some};
    ghost use Rattle.fw_addr.specs.Protocols.{proto_text};

    ghost output = { λ proto. Some (proto_text proto) };

    fn fmt<W: fmt::Write>(&self, f: &mut fmt::Formatter<W>) -> fmt::Result {
        match name_of(self.0) {
            Some(name) => f.write_str(name),
            None => f.write(self.0),
        }
    }
}

/// Reads the name of a protocol that has ports: `tcp`, `udp`, `sctp` or `dccp`.
pub fn read_port_proto(text: &str) -> Result<PortProto, AddrError>
    ensures { result ≡ ok_or (port_proto text.now) AddrError.InvalidProtocol }
{
    match text {
        "tcp" => Ok(PortProto::Tcp),
        "udp" => Ok(PortProto::Udp),
        "sctp" => Ok(PortProto::Sctp),
        "dccp" => Ok(PortProto::Dccp),
        _ => Err(AddrError::InvalidProtocol),
    }
}

/// Reads a protocol: a name that it knows, or a decimal number up to 255 without leading zeros.
pub fn read_proto(text: &str) -> Result<Proto, AddrError>
    ensures { result ≡ ok_or (proto text.now) AddrError.InvalidProtocol }
{
    if let Some(number) = number_named(text) {
        return Ok(Proto(number));
    }
    match read_number(text.as_bytes(), u64::from(u8::MAX)) {
        Some(number) => Ok(Proto(number as u8)),
        None => Err(AddrError::InvalidProtocol),
    }
}

fn number_named(text: &str) -> Option<u8>
    ensures { result ≡ named proto_names text.now }
{
    match text {
        "icmp" => Some(ICMP),
        "igmp" => Some(2),
        "tcp" => Some(TCP),
        "udp" => Some(UDP),
        "dccp" => Some(DCCP),
        "gre" => Some(47),
        "esp" => Some(50),
        "ah" => Some(51),
        "ipv6-icmp" => Some(ICMPV6),
        "sctp" => Some(SCTP),
        _ => None,
    }
}

/// The protocol as a text: its name where there is one, else its number.
pub fn print_proto(alloc: Global, protocol: &Proto) -> Result<Text, Memory>
    ensures text { IfOk result (λ text. text ≡ proto_text protocol.now) }
    ensures read_back { IfOk result (λ text. proto text ≡ Some protocol.now) }
{
    printed_protocols_are_read();
    let _number = protocol.0;
    let string = format!(in alloc; "{protocol}")?;
    Ok(Text::from_string(string))
}

fn name_of(number: u8) -> Option<&'static str>
    ensures { option_copied result ≡ name_of proto_names number }
{
    match number {
        ICMP => Some("icmp"),
        2 => Some("igmp"),
        TCP => Some("tcp"),
        UDP => Some("udp"),
        DCCP => Some("dccp"),
        47 => Some("gre"),
        50 => Some("esp"),
        51 => Some("ah"),
        ICMPV6 => Some("ipv6-icmp"),
        SCTP => Some("sctp"),
        _ => None,
    }
}
