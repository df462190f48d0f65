//! What the settings machine's members answer: signals and a reply, or a refusal that names what it refuses.
#![tactic(auto)]

mod answer;
mod edit;
mod stop;

pub use answer::{Answer, replied, told};
pub use edit::EditError;
pub use stop::{Stop, refuse, require};
