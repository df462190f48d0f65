//! All settings of the daemon: the permanent ones, those in force, timers, and the numbers of objects; and what an event leaves of
//! them, by what became of its save and its commit.
#![tactic(auto)]

mod laws;
mod numbers;
mod proposal;
mod settings;
mod settling;
mod starting;

pub use laws::first_settings_are_valid;
pub use proposal::Proposal;
pub use settings::Settings;
pub use settling::settle;
pub use starting::start;
