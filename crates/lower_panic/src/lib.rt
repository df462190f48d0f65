//! The ruleset of panic mode, in which every packet is dropped.
#![tactic(auto)]

mod laws;
mod panic;

pub use laws::panic_rules_compile;
pub use panic::panic_rules;
