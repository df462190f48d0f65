//! What a journal says of the daemon, and which journals it may have. The functions here are laws: their clauses are all of them.
#![tactic(auto)]

mod laws;

pub use laws::{journal_grows, settled_as_proposed};
