//! The first rule of a valid configuration that a configuration breaks (firewalld.conf(5), firewalld.zone(5), firewalld.policies(5),
//! firewalld.service(5), firewalld.ipset(5), firewalld.richlanguage(5)).
#![tactic(auto)]

mod broken;
mod each;
mod known;
mod names;
mod one_zone;
mod repeats;
mod rich;
mod rule;
mod sets;
mod written;

pub use broken::{broken_rule, find_broken_rule};
pub use rule::Rule;
