//! Settings of firewalld told in matches of nft(8): the matches hold of exactly the packets that the setting is about.
#![tactic(auto)]

mod alternatives;
mod icmp;
mod laws;
mod rich;
mod service;
mod setting;
mod sides;

pub use laws::sources_are_told;
pub use rich::rich_matches;
pub use setting::matches_of;
pub use sides::{receiver_test, source_test};
