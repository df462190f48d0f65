//! When the tests of rules hold of a packet, as nft(8) describes its expressions.
#![tactic(auto)]

mod rewrite;
mod sets;
mod test;

pub use rewrite::Rewrite;
pub use test::match_holds;
