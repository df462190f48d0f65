//! The words of the command line: what they ask the program to do.
//!
//! The words are checked by the program's own grammar first (`options`). Then `clap` takes the values of the options from them, which it can
//! refuse for want of memory alone (`found`).
#![tactic(auto)]

mod command;
mod error;
mod form;
mod found;
mod law;
mod options;
mod parser;
mod picking;
mod places;
mod values;
mod verb;

pub use command::Command;
pub use error::PickError;
pub use law::checked_options_ask;
pub use picking::pick;
