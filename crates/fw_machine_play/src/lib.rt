//! Plays lines of a script on the settings machine, and prints what a client is told of each event: what tables of rows on the machine
//! are written in.
#![tactic(auto)]

mod error;
mod play;
mod script;
mod told;

pub use error::PlayError;
pub use play::Play;
pub use script::play_script;
pub use told::Results;
