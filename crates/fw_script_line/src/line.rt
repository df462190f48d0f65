//! What the lines of a script say.
use fw_addr::Iface;
use fw_base::{Seq, Text};
use fw_calls::Call;
use fw_model::Packet;

/// A line of a script. Clients and connections have numbers from 0 to 9999, and are numbered apart.
#[derive(Drop)]
pub enum Line {
    /// An empty line or a comment.
    Skip,
    /// A client makes a call.
    Call { client: u16, call: Call },
    /// A client makes a call with a JSON text that isn't of its argument's type. The signature has the types of the member's arguments.
    Unfit { client: u16, signature: Text },
    /// A client's session ends.
    End { client: u16 },
    /// The time is told, in seconds, up to 2^62.
    Tick { now: u64 },
    /// A link of this name, which has no `+`, came up, or is gone.
    Link { up: bool, name: Iface },
    /// A packet is asked about.
    Packet(Packet),
    /// The ruleset that is installed is asked for.
    Rules,
    /// Bytes come in on a connection of the message bus.
    Dbus { connection: u16, bytes: Seq<u8> },
    /// The bytes of a connection end.
    Hang { connection: u16 },
}
