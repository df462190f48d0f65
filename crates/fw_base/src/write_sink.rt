//! A sink over a writer of std.
ghost use Rattle.std.specs.Prelude.{◌≡◌, None};
ghost use Rattle.fw_base.specs.Adapters.{WritesPiece};
ghost use Rattle.fw_base.specs.Causes.{HasCause};
ghost use Rattle.fw_base.specs.Streams.{Writes};

use super::{Failed, Sink};
use std::io::Write;
use std::marker::Model;

/// A writer of std as a sink, which counts each error. Each piece is flushed. As a sink it tells nothing of its
/// bytes; contracts see the writer in it, to which a write of the sink appends the piece.
#[derive(Drop)]
pub struct WriteSink<W> {
    inner: W,
    faults: u64,
}

impl<W> Model for WriteSink<W> {
    ghost use Rattle.fw_base.specs.Adapters.{Adapted, adapted_code};

    ghost Value = { Adapted W };

    ghost coded = { adapted_code W.code };

    ghost view = { λ s. record { inner = s.inner; faults = s.faults } };
}

impl<W: Write> WriteSink<W> {
    /// The writer with no fault counted.
    pub fn new(inner: W) -> WriteSink<W>
        ensures { result ≡ record { inner = inner; faults = 0 } }
    {
        WriteSink { inner, faults: 0 }
    }
}

impl<W: Write> Sink for WriteSink<W> {
    ghost written = { λ _. None };

    ghost faults = { λ s. s.faults };

    fn write(&mut self, piece: &[u8]) -> Result<(), Failed>
        ensures writes { Writes None None result piece.now }
        ensures cause { HasCause self.old.faults self.new.faults result }
        ensures passes { WritesPiece (W.contents self.old.inner) (W.contents self.new.inner) result piece.now }
    {
        let written = write_and_flush(&mut self.inner, piece);
        if written.is_err() {
            self.faults = self.faults.saturating_add(1);
        }
        written
    }
}

/// Writes a piece, in as many writes as it takes, and flushes.
fn write_and_flush<W: Write>(writer: &mut W, piece: &[u8]) -> Result<(), Failed>
    ensures { WritesPiece (W.contents writer.old) (W.contents writer.new) result piece.now }
{
    let mut rest = piece;
    while !rest.is_empty() {
        let Ok(count) = writer.write(rest) else {
            return Err(Failed);
        };
        if count == 0 {
            return Err(Failed);
        }
        rest = &rest[count..];
    }
    match writer.flush() {
        Ok(()) => Ok(()),
        Err(_) => Err(Failed),
    }
}
