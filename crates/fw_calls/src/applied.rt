//! What became of a save or a commit.

/// Whether an event saved the permanent settings, or put the runtime settings into force.
#[derive(Clone, Copy, Debug, PartialEq, Eq)]
pub enum Applied {
    /// It wasn't needed, or wasn't tried.
    Skipped,
    Done,
    Failed,
}
