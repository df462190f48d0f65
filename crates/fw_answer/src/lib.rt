//! What calls answer: signals and a reply, or a refusal that names what it refuses.
#![tactic(auto)]

mod answer;
mod edits;
mod refusal;

pub use answer::{Answer, value_answer};
pub use edits::EditError;
pub use refusal::{Refusal, Stop, refuse};
