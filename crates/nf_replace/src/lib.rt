//! The transaction that installs a ruleset in the place of whatever another.
#![tactic(auto)]

mod laws;
mod transaction;

pub use laws::replacing_makes_the_ruleset;
pub use transaction::replace;
