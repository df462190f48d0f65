//! Calls on the permanent settings keep the settings of the daemon valid.
#![tactic(auto)]

mod laws;

pub use laws::{
    add_policy_keeps_valid, add_zone_keeps_valid, remove_policy_keeps_valid,
    remove_zone_keeps_valid, update_policy_keeps_valid, update_zone_keeps_valid,
};
