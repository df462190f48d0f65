//! The chains at prerouting and postrouting outside the filter: what packets are marked, translated and masqueraded by, zone by zone
//! (firewalld.zone(5), firewalld.policies(5)).
#![tactic(auto)]

mod blocks;
mod hook;
mod laws;
mod names;
mod needed;
mod rules;
mod sides;

pub use laws::{
    bases_run, chains_are_apart, postrouting_changes, prerouting_changes, sides_are_apart,
    sides_hold, sides_stand_outside, sides_work, way_is_led,
};
pub use sides::side_chains;
