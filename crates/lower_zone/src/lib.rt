//! The settings of zones and policies told in chains of nft(8): the chains do with packets what the walk of firewalld.zone(5) and
//! firewalld.richlanguage(5) does.
#![tactic(auto)]

mod block;
mod laws;
mod lines;
mod listed;
mod names;
mod part;
mod policy;
mod rules;
mod zone;

pub use laws::blocks_are_apart;
pub use policy::policy_chains;
pub use rules::{jump_to, limited, one, push_each, statement};
pub use zone::zone_chains;
