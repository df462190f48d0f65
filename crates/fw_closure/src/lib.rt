//! Services that are reached through includes (firewalld.service(5), `include`).
#![tactic(auto)]

mod laws;
mod reached;
mod walk;

pub use laws::chains_are_short;
pub use reached::closure;
