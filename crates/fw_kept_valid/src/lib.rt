//! Calls on the settings in force keep the settings of the daemon valid.
#![tactic(auto)]

mod laws;

pub use laws::{
    binding_keeps_valid, inversion_keeps_valid, setting_keeps_valid, verbs_are_timed,
    zone_of_keeps_valid, zone_settings_keeps_valid,
};
