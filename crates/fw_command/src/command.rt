//! What the program is asked to do.
use fw_base::{Seq, Text};

/// A command of the program.
#[derive(Drop)]
pub enum Command {
    /// Run the script on standard input. The permanent settings are kept in the file of that path, or in memory. The commits and the saves at
    /// these places, counted from 1 and ascending, are to fail.
    Run {
        state: Option<Text>,
        fail_commit: Seq<u64>,
        fail_save: Seq<u64>,
    },
    /// Serve a socket by 1 to 64 workers, until so many sessions, at most 10,000,000, have begun. The permanent settings are kept in the file of
    /// that path, or in memory.
    Serve {
        socket: Text,
        workers: u32,
        sessions: u64,
        state: Option<Text>,
    },
    /// Run a generated script of 1 to 100,000 lines, which follow from the seed.
    Gen {
        seed: u64,
        lines: u32,
    },
    /// Tell of the commands.
    Help,
}
