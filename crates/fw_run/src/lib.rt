//! Running a script: its lines one after another, with what they print written as it goes.
#![tactic(auto)]

mod ended;
mod machine;
mod run;
mod runner;

pub use ended::Ended;
pub use machine::Machine;
pub use run::{Ran, run_script};
