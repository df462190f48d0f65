//! A journal of numbered entries, which is taken in turn.
ghost use Rattle.std.specs.Prelude.{◌≡◌, ◌<◌, ◌^◌, ◌++◌, ◌∷◌, [], MatchBool, length};

use std::alloc::Global;
use turn_core::Journaled;

/// One entry: its session, and its number within the session.
#[derive(Clone, Copy, Debug, PartialEq, Eq)]
pub struct Entry {
    /// The place of the entry that opened the session.
    pub session: u64,
    /// How many entries of the session stand before it.
    pub number: u64,
}

// More entries than a test makes.
const MOST: usize = 1 << 40;

/// Entries under a name.
#[derive(Drop)]
pub struct Journal {
    /// Its name.
    pub name: u64,
    /// Its entries, the first one first.
    pub entries: Vec<Entry>,
    ghost few: { length entries.items < 2 ^ 62 },
}

impl Journal {
    /// A journal with no entry.
    pub fn new(alloc: Global, name: u64) -> Journal
        ensures { (result.name ≡ name) × (result.entries.items ≡ []) }
    {
        Journal {
            name,
            entries: Vec::new(alloc),
        }
    }

    /// Adds an entry, and says whether there was room for it.
    pub fn add(&mut self, entry: Entry) -> bool
        ensures name { self.new.name ≡ self.old.name }
        ensures entries { MatchBool result (self.new.entries.items ≡ self.old.entries.items ++ entry ∷ []) (self.new.entries.items ≡ self.old.entries.items) }
    {
        if self.entries.as_slice().len() >= MOST {
            return false;
        }
        self.entries.push(entry).is_ok()
    }
}

impl Journaled for Journal {
    type Base = u64;

    type Entry = Entry;

    ghost base = { λ j. j.name };

    ghost entries = { λ j. j.entries.items };

    ghost session = { λ e. e.session };

    fn len(&self) -> u64 {
        self.entries.as_slice().len() as u64
    }
}
