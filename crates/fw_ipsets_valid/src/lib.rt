//! Calls on ipsets keep the settings of the daemon valid.
#![tactic(auto)]

mod laws;

pub use laws::ipset_keeps_valid;
