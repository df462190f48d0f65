//! The journal of the daemon: what it was asked, what became of it, and what sessions are told of it.
#![tactic(auto)]

mod journal;
mod sessions;
mod telling;

pub use journal::Journal;
pub use telling::push_copies;
