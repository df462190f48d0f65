//! Events, as a script's lines tell them.
use super::Asked;
use fw_addr::Iface;

/// What a line tells.
#[derive(Drop)]
pub enum EventLine {
    /// A client of this number, up to 9999, makes a call.
    Call { client: u16, asked: Asked },
    /// A client's session ends.
    End { client: u16 },
    /// The time is told, in seconds, up to 2^62.
    Tick { now: u64 },
    /// A link of this name came up, or is gone.
    Link { up: bool, name: Iface },
}
