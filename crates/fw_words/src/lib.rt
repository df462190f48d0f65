//! The words of a script's line.
#![tactic(auto)]

mod error;
mod keys;
mod reader;
mod words;

pub use error::LineError;
pub use keys::{after_key, at_most_one, only};
pub use reader::Words;
pub use words::split_words;
