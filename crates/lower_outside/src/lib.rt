//! The settings outside the filter told in chains of nft(8): what zones and policies mark, translate and have leave with the host's own
//! address (firewalld.richlanguage(5), firewalld.zone(5)).
#![tactic(auto)]

mod block;
mod chains;
mod laws;
mod names;
mod needed;
mod rich;
mod settings;
mod steps;
mod targets;

pub use chains::{policy_chains, zone_chains};
pub use laws::{blocks_are_apart, others_do_nothing};
pub use names::{policy_chain_name, zone_chain_name};
pub use needed::has_changes;
