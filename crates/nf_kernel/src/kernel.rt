//! What is ready to be installed.
use nf_rules::Ruleset;

/// A transaction that is staged.
#[derive(Debug, PartialEq, Eq, Drop)]
pub struct Ready {
    /// The ruleset that its commit installs.
    pub after: Ruleset,
    /// How many commands it has.
    pub commands: u64,
}
