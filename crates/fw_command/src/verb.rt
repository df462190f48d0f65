//! The commands that have options.

/// A command that has options.
#[derive(Clone, Copy, Debug, PartialEq, Eq)]
pub enum Verb {
    Run,
    Serve,
    Gen,
}
