//! Where bytes go.
ghost use Rattle.std.specs.Prelude.{ℕ, List, Option};
ghost use Rattle.fw_base.specs.Causes.{HasCause};
ghost use Rattle.fw_base.specs.Streams.{Writes};

use super::Failed;

/// A stream of bytes to be written.
pub trait Sink {
    /// The bytes written so far, where the sink tells them.
    ghost written: { Self → Option (List ℕ) };

    /// The faults so far. The count ends at 2^64 - 1.
    ghost faults: { Self → ℕ };

    /// Writes a piece.
    ///
    /// Failed comes only where the count of faults rose; a front of the piece may have been written then.
    fn write(&mut self, piece: &[u8]) -> Result<(), Failed>
        ensures writes { Writes (written self.old) (written self.new) result piece.now }
        ensures cause { HasCause (faults self.old) (faults self.new) result };
}
