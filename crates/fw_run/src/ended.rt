//! How a run of a script ends.

/// How a run of a script ends. What is met first ends it.
#[derive(Clone, Copy, Debug, PartialEq, Eq)]
pub enum Ended {
    /// The whole input was read and run.
    Done,
    /// This line, counted from 1, is the first outside the grammar or over its limit of 1,048,576 bytes.
    BadScript { line: u64 },
    /// The input is longer than 67,108,864 bytes.
    InputTooLong,
    /// A read of the input failed.
    ReadFault,
    /// A write of the output failed.
    WriteFault,
    /// No memory was found.
    Memory,
}
