//! What the time and links make of the settings: settings that end by themselves, and interfaces that come and go.
#![tactic(auto)]

mod linking;
mod ticking;

pub use linking::link_member;
pub use ticking::tick_member;
