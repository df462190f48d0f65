//! The time and links keep the settings of the daemon valid.
#![tactic(auto)]

mod laws;

pub use laws::{ended_settings_keep_valid, link_keeps_valid, tick_keeps_valid};
