//! A source over a reader of std.
ghost use Rattle.std.specs.Prelude.{◌≡◌, ◌<◌, None, length};
ghost use Rattle.std.specs.Io.KnownBytes.{ReadConsumes};
ghost use Rattle.fw_base.specs.Causes.{HasCause};
ghost use Rattle.fw_base.specs.Streams.{Reads};

use super::{Failed, Source};
use std::io::Read;
use std::marker::Model;

/// A reader of std as a source, which counts each error. As a source it tells nothing of its bytes; contracts
/// see the reader in it, whose bytes a read of the source takes as a read of the reader does.
#[derive(Drop)]
pub struct ReadSource<R> {
    inner: R,
    faults: u64,
}

impl<R> Model for ReadSource<R> {
    ghost use Rattle.fw_base.specs.Adapters.{Adapted, adapted_code};

    ghost Value = { Adapted R };

    ghost coded = { adapted_code R.code };

    ghost view = { λ s. record { inner = s.inner; faults = s.faults } };
}

impl<R: Read> ReadSource<R> {
    /// The reader with no fault counted.
    pub fn new(inner: R) -> ReadSource<R>
        ensures { result ≡ record { inner = inner; faults = 0 } }
    {
        ReadSource { inner, faults: 0 }
    }
}

impl<R: Read> Source for ReadSource<R> {
    ghost left = { λ _. None };

    ghost faults = { λ s. s.faults };

    fn read(&mut self, into: &mut [u8]) -> Result<usize, Failed>
        requires { 0 < length into.old }
        ensures reads { Reads None None result into.new }
        ensures cause { HasCause self.old.faults self.new.faults result }
        ensures passes { ReadConsumes (R.remaining self.old.inner) (R.remaining self.new.inner) result into.new }
    {
        match self.inner.read(into) {
            Ok(count) => Ok(count),
            Err(_) => {
                self.faults = self.faults.saturating_add(1);
                Err(Failed)
            }
        }
    }
}
