//! The firewall that a script drives: its settings, its clients' sessions, and the signals that they are told.
#![tactic(auto)]

mod firewall;
mod sessions;

pub use firewall::Firewall;
