//! What a call's words ask for.
use fw_calls::{Call, Letters};

/// A call, or a member with arguments that aren't of its types.
#[derive(Drop)]
pub enum Asked {
    Call(Call),
    /// The types of the member's arguments.
    Unfit(Letters),
}
