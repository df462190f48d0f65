//! The bindings of zones told in rules of nft(8): rules that lead a packet to the chain of the zone that it comes from or goes to
//! (firewalld.zones(5)).
#![tactic(auto)]

mod bindings;
mod direction;
mod interfaces;
mod laws;
mod rules;
mod sources;
mod uses;

pub use bindings::dispatch;
pub use direction::Direction;
pub use laws::packets_use_zones;
pub use uses::is_in_use;
