//! What a client is told: signals and replies, as values, and as the lines of a script's output.
#![tactic(auto)]

mod lists;
mod told;

pub use told::{Active, Reply, Signal, SignalKind, Value, push_reply, push_signal};
