//! What an attempt to take the turn answers.

/// The outcome of [`Turn::try_take`](crate::Turn::try_take).
#[derive(Debug, Drop)]
pub enum Tried<S> {
    /// The turn was taken. Here is the value.
    Held(S),
    /// The turn wasn't taken. This word was found: an odd one while another pass holds the turn, or an even one that had
    /// grown since the call first looked.
    Busy(u64),
}
