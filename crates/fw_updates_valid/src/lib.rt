//! A zone or a policy in force that is given the settings of a dict keeps the settings of the daemon valid.
#![tactic(auto)]

mod laws;

pub use laws::{
    policy_settings_keeps_valid, set_policy_settings_keeps_valid, set_zone_settings_keeps_valid,
};
