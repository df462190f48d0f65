//! The rich language: its rules read exactly by their grammar, and printed in one canonical form
//! (firewalld.richlanguage(5)).
#![tactic(auto)]

mod bytes;
mod error;
mod grammar;
mod numbers;
mod parts;
mod print;
mod read;
mod reading;
mod refusals;
mod token;
mod tokens;
mod values;

pub use error::RichError;
pub use print::{print_rich, push_rich};
pub use read::read_rich;
pub use token::refused_value;
