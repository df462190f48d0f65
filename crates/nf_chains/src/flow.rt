//! How a run through rules ends, and what comes behind a statement.
use fw_model::Verdict;

/// How a run through the rules of a chain ends.
#[derive(Clone, Copy)]
pub enum Flow {
    /// It comes back to where the chain was jumped to from.
    Back,
    /// The base chain has ended.
    Ended(Verdict),
}

/// What comes behind a statement.
#[derive(Clone, Copy)]
pub enum Next {
    /// The next statement of the rule.
    Statement,
    /// The next rule of the chain.
    Rule,
    /// The chain is over.
    Over(Flow),
}
