//! The one call that the program makes, and what is told of how it ended.
#![tactic(auto)]

mod status;
mod top;
mod words;

pub use status::{Status, tell};
pub use top::{Ran, top_run};
