//! A valid configuration of which parts are others, and timers beside these parts.
#![tactic(auto)]

mod laws;

pub use laws::{other_parts_keep_timers, other_parts_keep_valid};
