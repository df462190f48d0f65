//! How a packet is rejected.
ghost use Rattle.std.specs.Prelude.{◌≡◌};
ghost use Rattle.fw_addr.specs.Names.{reject_text};

use std::fmt;

/// What the sender of a rejected packet is told, by the names of nft(8): an ICMP or ICMPv6 message, one of
/// the packet's own family (`Icmpx`), or a TCP reset.
#[derive(Clone, Copy, Debug, PartialEq, Eq)]
pub enum RejectType {
    IcmpNetUnreachable,
    IcmpHostUnreachable,
    IcmpPortUnreachable,
    IcmpProtoUnreachable,
    IcmpNetProhibited,
    IcmpHostProhibited,
    IcmpAdminProhibited,
    Icmp6NoRoute,
    Icmp6AddrUnreachable,
    Icmp6PortUnreachable,
    Icmp6AdmProhibited,
    IcmpxAdminProhibited,
    IcmpxPortUnreachable,
    TcpReset,
}

impl RejectType {
    /// The type's name in nft(8) and firewalld.richlanguage(5).
    pub fn as_str(self) -> &'static str
        ensures { result.now ≡ reject_text self }
    {
        match self {
            RejectType::IcmpNetUnreachable => "icmp-net-unreachable",
            RejectType::IcmpHostUnreachable => "icmp-host-unreachable",
            RejectType::IcmpPortUnreachable => "icmp-port-unreachable",
            RejectType::IcmpProtoUnreachable => "icmp-proto-unreachable",
            RejectType::IcmpNetProhibited => "icmp-net-prohibited",
            RejectType::IcmpHostProhibited => "icmp-host-prohibited",
            RejectType::IcmpAdminProhibited => "icmp-admin-prohibited",
            RejectType::Icmp6NoRoute => "icmp6-no-route",
            RejectType::Icmp6AddrUnreachable => "icmp6-addr-unreachable",
            RejectType::Icmp6PortUnreachable => "icmp6-port-unreachable",
            RejectType::Icmp6AdmProhibited => "icmp6-adm-prohibited",
            RejectType::IcmpxAdminProhibited => "icmpx-admin-prohibited",
            RejectType::IcmpxPortUnreachable => "icmpx-port-unreachable",
            RejectType::TcpReset => "tcp-reset",
        }
    }
}

impl fmt::Display for RejectType {
    ghost use Rattle.std.specs.Prelude.{Some};
    ghost use Rattle.fw_addr.specs.Names.{reject_text};

    ghost output = { λ kind. Some (reject_text kind) };

    fn fmt<W: fmt::Write>(&self, f: &mut fmt::Formatter<W>) -> fmt::Result {
        f.write_str(self.as_str())
    }
}
