//! The lines of a source, one at a time, within a limit on the length of a line and one on the length of
//! the input.
#![tactic(auto)]

mod advance;
mod buffer;
mod line_reader;

pub use advance::Advance;
pub use line_reader::LineReader;
