//! Whether two configurations are one, part by part: so that what an event changes is known without a trace of it.
#![tactic(auto)]

mod config;
mod lists;
mod objects;
mod rules;
mod timed;

pub use config::{same_config, same_runtime};
pub use lists::{SameObject, same_objects};
