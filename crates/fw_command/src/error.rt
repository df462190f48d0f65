//! Why words are refused.
ghost use Rattle.std.specs.Prelude.{◌≡◌};
ghost use Rattle.fw_command.specs.declared.error.PickError.TheVariants.{Memory as OutOfMemory};

use fw_base::Memory;
use std::alloc::AllocError;
use std::error::Error;
use std::fmt;

/// Why no command could be taken from words.
#[derive(Clone, Copy, Debug, PartialEq, Eq)]
pub enum PickError {
    /// The words are outside the grammar.
    Usage,
    Memory,
}

impl fmt::Display for PickError {
    fn fmt<W: fmt::Write>(&self, f: &mut fmt::Formatter<W>) -> fmt::Result {
        match self {
            PickError::Usage => write!(f, "no such command"),
            PickError::Memory => write!(f, "out of memory"),
        }
    }
}

impl Error for PickError {}

impl From<Memory> for PickError {
    ghost from_gives = { λ _ e. e ≡ OutOfMemory };

    fn from(_error: Memory) -> PickError {
        PickError::Memory
    }
}

impl From<AllocError> for PickError {
    ghost from_gives = { λ _ e. e ≡ OutOfMemory };

    fn from(_error: AllocError) -> PickError {
        PickError::Memory
    }
}
