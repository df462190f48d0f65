//! The settings machine keeps the settings of the daemon valid: whatever event comes, and whatever becomes of its save and its commit.
#![tactic(auto)]

mod calls;
mod machine;
mod numbers;
mod ranges;

pub use calls::{
    called_keeps_valid, config_called_keeps_valid, policy_called_keeps_valid,
    policy_object_called_keeps_valid, root_called_keeps_valid, zone_called_keeps_valid,
    zone_object_called_keeps_valid,
};
pub use machine::{
    history_keeps_valid, settled_keeps_valid, started_keeps_valid, step_keeps_valid,
};
pub use numbers::{called_keeps_numbers, step_keeps_numbers};
pub use ranges::{events_are_in_range, settings_are_in_range};
