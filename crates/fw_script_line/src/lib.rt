//! The script language: what a line says.
#![tactic(auto)]

mod bytes;
mod line;
mod lines;
mod text;

pub use fw_words::LineError;
pub use line::Line;
pub use lines::read_line;
