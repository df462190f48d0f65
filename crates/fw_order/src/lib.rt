//! Lists in the order in which they act.
#![tactic(auto)]

mod policies;
mod rules;

pub use policies::by_priority_and_name;
pub use rules::by_priority;
