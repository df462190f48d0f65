//! The two readings that all the grammars share: a text cut at a separator, and a decimal number.
#![tactic(auto)]

mod number;
mod pieces;

pub use number::{decimal_is_read, read_number};
pub use pieces::{Front, cut};
