//! Where bytes come from.
ghost use Rattle.std.specs.Prelude.{ℕ, ◌<◌, List, Option, length};
ghost use Rattle.fw_base.specs.Causes.{HasCause};
ghost use Rattle.fw_base.specs.Streams.{Reads};

use std::error::Error;
use std::fmt;

/// An object of the outside failed at a call, and has counted it.
#[derive(Clone, Copy, Debug, PartialEq, Eq)]
pub struct Failed;

impl fmt::Display for Failed {
    fn fmt<W: fmt::Write>(&self, f: &mut fmt::Formatter<W>) -> fmt::Result {
        write!(f, "the outside failed")
    }
}

impl Error for Failed {}

/// A stream of bytes to be read.
pub trait Source {
    /// The bytes that are left, where the source tells them.
    ghost left: { Self → Option (List ℕ) };

    /// The faults so far. The count ends at 2^64 - 1.
    ghost faults: { Self → ℕ };

    /// Reads into a buffer, and answers how many bytes; 0 stands for the end.
    ///
    /// Failed comes only where the count of faults rose, and leaves what is left as it was.
    fn read(&mut self, into: &mut [u8]) -> Result<usize, Failed>
        requires { 0 < length into.old }
        ensures reads { Reads (left self.old) (left self.new) result into.new }
        ensures cause { HasCause (faults self.old) (faults self.new) result };
}
