//! Why a set isn't changed.
use fw_base::Memory;
use std::error::Error;
use std::fmt;

/// Why an entry isn't read, or the entries of a set aren't changed.
#[derive(Clone, Copy, Debug, PartialEq, Eq)]
pub enum SetError {
    /// The set holds the item already.
    AlreadyEnabled,
    /// The set doesn't hold the item.
    NotEnabled,
    /// The text is no entry of the set's kind and family.
    InvalidEntry,
    /// The set's entries come with a timeout, so that the firewall keeps none.
    IpsetWithTimeout,
    /// No memory was found.
    Memory,
}

impl fmt::Display for SetError {
    fn fmt<W: fmt::Write>(&self, f: &mut fmt::Formatter<W>) -> fmt::Result {
        f.write_str(match self {
            SetError::AlreadyEnabled => "already enabled",
            SetError::NotEnabled => "not enabled",
            SetError::InvalidEntry => "no entry of this set",
            SetError::IpsetWithTimeout => "the set has a timeout",
            SetError::Memory => "out of memory",
        })
    }
}

impl Error for SetError {}

impl From<Memory> for SetError {
    fn from(_error: Memory) -> SetError {
        SetError::Memory
    }
}
