//! What is written of the permanent settings is read as these settings.
#![tactic(auto)]

mod laws;

pub use laws::written_settings_are_read;
