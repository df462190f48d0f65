//! Messages that tests and benchmarks write, each proved to have a written form.
#![tactic(auto)]

mod samples;

pub use samples::{answer, pong};
