//! What an event is to do: what it is answered, the settings afterwards, and whether these are to be saved and to be put into force.
#![tactic(auto)]

mod proposing;
mod settings;

pub use proposing::{propose, propose_refusal, propose_unchanged};
pub use settings::same_settings;
