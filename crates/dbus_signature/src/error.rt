//! Why bytes could not be read.

ghost use Rattle.std.specs.Prelude.{◌≡◌};
ghost use Rattle.dbus_signature.specs.declared.error.WireError.TheVariants.{Memory as OutOfMemory};

use fw_base::Memory;
use std::alloc::{AllocError, AllocFailed};
use std::error::Error;
use std::fmt;

/// Why bytes could not be read.
#[derive(Clone, Copy, Debug, PartialEq, Eq)]
pub enum WireError {
    /// Nothing is spelt there. The number is the place of the first byte of the first field that breaks its own
    /// rule or runs over its array or the input.
    Bad(usize),
    /// No memory was found.
    Memory,
}

impl fmt::Display for WireError {
    fn fmt<W: fmt::Write>(&self, f: &mut fmt::Formatter<W>) -> fmt::Result {
        match self {
            WireError::Bad(place) => write!(f, "the byte at {place} is at fault"),
            WireError::Memory => write!(f, "out of memory"),
        }
    }
}

impl Error for WireError {}

impl From<Memory> for WireError {
    ghost from_gives = { λ _ error. error ≡ OutOfMemory };

    fn from(_error: Memory) -> WireError {
        WireError::Memory
    }
}

impl From<AllocError> for WireError {
    ghost from_gives = { λ _ error. error ≡ OutOfMemory };

    fn from(_error: AllocError) -> WireError {
        WireError::Memory
    }
}

impl<T: Drop> From<AllocFailed<T>> for WireError {
    ghost from_gives = { λ _ error. error ≡ OutOfMemory };

    fn from(_error: AllocFailed<T>) -> WireError {
        WireError::Memory
    }
}
