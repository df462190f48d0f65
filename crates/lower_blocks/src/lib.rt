//! The chains of the settings of zones and policies that packets may meet, each once, where a rule jumps to them.
#![tactic(auto)]

mod blocks;
mod laws;
mod needed;

pub use blocks::{push_block, settings_chains};
pub use laws::acting_policies_are_told;
