//! What rules rewrite of packets.
ghost use Rattle.std.specs.Prelude.{◌≡◌};
ghost use Rattle.nf_eval.specs.Rewrites.{unwritten};

use fw_addr::Addr;
use fw_model::Packet;

/// The parts of a packet that rules rewrite (nft(8), META STATEMENT and NAT STATEMENTS), as they are now.
#[derive(Clone, Copy, Debug, PartialEq, Eq)]
pub struct Rewrite {
    pub mark: u32,
    pub dst: Addr,
    pub dport: u16,
    /// Whether its connection's destination is translated.
    pub dnat: bool,
}

impl Rewrite {
    /// Those of a packet that no rule has rewritten.
    pub fn of(packet: &Packet) -> Rewrite
        ensures { result ≡ unwritten packet.now }
    {
        Rewrite {
            mark: packet.mark,
            dst: packet.dst,
            dport: packet.dport,
            dnat: packet.dnat,
        }
    }
}
