//! What a value must tell to be taken in turn.
ghost use Rattle.std.specs.Prelude.{◌≡◌, ◌<◌, ◌^◌, ℕ, List, length};

/// A value with a journal. Contracts see it as a base and a list of entries, each with its session: the place, counted
/// from 0, of the entry that opened it.
pub trait Journaled {
    /// What the value was when its journal was empty.
    type Base;
    /// One line of the journal.
    type Entry;

    ghost base: { Self → Self.Base };

    ghost entries: { Self → List Self.Entry };

    ghost session: { Self.Entry → ℕ };

    /// How many entries the journal has, which are fewer than 2^62.
    fn len(&self) -> u64
        ensures count { result ≡ length (entries self.now) }
        ensures few { result < 2 ^ 62 };
}
