//! The history of the settings: what happened to them since the start, and what each event left.
#![tactic(auto)]

mod history;
mod plan;

pub use history::{Entered, History};
pub use plan::{Plan, Unplanned};
