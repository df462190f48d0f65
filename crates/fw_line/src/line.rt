//! What the lines of a script say.
use fw_base::Text;
use fw_call::Call;
use fw_model::Packet;

/// A line of a script.
#[derive(Drop)]
pub enum Line {
    /// An empty line or a comment.
    Skip,
    /// A call of a client, which has a number from 0 to 9999.
    Call { client: u16, call: Call },
    /// A call of a client with an argument that isn't of its type; the types of the member's arguments.
    Unfit { client: u16, signature: Text },
    /// The end of a client's session.
    End { client: u16 },
    /// A packet that is asked about.
    Packet(Packet),
}
