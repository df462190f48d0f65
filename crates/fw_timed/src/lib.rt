//! Settings of zones that end by themselves, and when they end.
#![tactic(auto)]

mod due;
mod same;
mod timers;

pub use same::is_same;
pub use timers::Timers;
