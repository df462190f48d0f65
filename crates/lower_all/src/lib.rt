//! The compiler of settings to one ruleset of nft(8): filter chains at input, forward and output, and chains at prerouting and postrouting
//! that mark and translate, through which packets go by their zones, as firewalld's manuals tell.
#![tactic(auto)]

mod nft;
mod outside;
mod sets;
mod zones;

pub use nft::Nft;
