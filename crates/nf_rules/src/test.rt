//! What rules ask about packets.
use fw_addr::{CtState, Family, Iface, Limit, Mac, Net, PktType, PortProto, PortRange, Proto};
use fw_base::{Memory, Text, TryCopy};
use std::alloc::Global;

/// A question about a packet (nft(8), "EXPRESSIONS"). Sets are meant by their names.
#[derive(Clone, Debug, PartialEq, Eq, Drop)]
pub enum Test {
    /// Its addresses are of this family (`meta nfproto`).
    Family(Family),
    /// Its source lies in the net (`ip saddr`, `ip6 saddr`).
    Src(Net),
    /// Its destination lies in the net (`ip daddr`, `ip6 daddr`).
    Dst(Net),
    /// Its source lies in a net of the set.
    SrcSet(Text),
    /// Its destination lies in a net of the set.
    DstSet(Text),
    /// Its sender has this hardware address (`ether saddr`).
    SrcMac(Mac),
    /// The hardware address of its sender is in the set.
    SrcMacSet(Text),
    /// The interface that it came by is one that the entry stands for (`iifname`).
    In(Iface),
    /// The interface that it leaves by is one that the entry stands for (`oifname`).
    Out(Iface),
    /// Its protocol is this one (`meta l4proto`).
    Proto(Proto),
    /// Its protocol is this one, and its source port is in the range (`tcp sport` and its kin).
    Sport(PortProto, PortRange),
    /// Its protocol is this one, and its destination port is in the range (`tcp dport` and its kin).
    Dport(PortProto, PortRange),
    /// Its protocol is this one, and its destination port is in a range of the set.
    DportSet(PortProto, Text),
    /// It is an ICMP packet of this family and type (`icmp type`, `icmpv6 type`).
    Icmp(Family, u8),
    /// The state of its connection is this one (`ct state`).
    State(CtState),
    /// The destination of its connection is translated (`ct status dnat`).
    Dnat,
    /// The link layer addressed it so (`meta pkttype`).
    Pkt(PktType),
    /// The limit passes (`limit rate`).
    Limit(Limit),
}

impl TryCopy for Test {
    fn copy(&self, _alloc: Global) -> Result<Test, Memory> {
        Ok(self.clone()?)
    }
}
