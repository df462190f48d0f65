//! Timers stay those of settings that are there, where a setting comes to a zone or goes from it, or where the zone keeps its settings.
#![tactic(auto)]

mod laws;

pub use laws::{
    added_setting_keeps_timers, kept_settings_keep_timers, removed_setting_keeps_timers,
};
