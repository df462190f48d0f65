//! What an advance to the next line answers.

/// What [`LineReader::advance`](crate::LineReader::advance) came to.
#[derive(Clone, Copy, Debug, PartialEq, Eq)]
pub enum Advance {
    /// A line was found.
    Line,
    /// No bytes are left.
    End,
    /// The next line has more bytes than a line may have.
    LineTooLong,
    /// The input has more bytes than it may have, and what lies within its limit is no whole line.
    InputTooLong,
    /// A read of the source failed, which the source has counted.
    Failed,
    /// No memory was found for the bytes ahead.
    Memory,
}
