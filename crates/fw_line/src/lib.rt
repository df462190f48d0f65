//! The script language: what a line says, and the texts that it prints.
#![tactic(auto)]

mod line;
mod lines;
mod outcome_text;

pub use fw_words::LineError;
pub use line::Line;
pub use lines::read_line;
pub use outcome_text::{print_outcome, push_outcome};
