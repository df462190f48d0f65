//! The packets that a script asks about, by the words of their lines.
#![tactic(auto)]

mod keys;
mod links;
mod packets;
mod value;
mod values;

pub use packets::read_packet;
