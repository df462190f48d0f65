//! Rows of the turn: who gets it, what it finds, and what many threads leave behind.
#![tactic(auto)]

mod journal;
mod threads;
mod whole;
mod worker;

pub use journal::{Entry, Journal};
pub use threads::{Worked, alone, four, pair};
pub use whole::{run_four, run_one, run_two, start, take_all};
pub use worker::{add, open_session, take, work};
