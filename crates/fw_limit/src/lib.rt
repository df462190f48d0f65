//! Limits: their texts, and which a packet is within.
#![tactic(auto)]

mod limit;
mod within;

pub use limit::read_limit;
pub use within::is_within;
