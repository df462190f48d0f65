//! The journal.
ghost use Rattle.std.specs.Prelude.{◌≡◌, ◌≤◌, ◌<◌, ◌+◌, ◌^◌, ◌↔◌, [], ◌∷◌, ◌++◌, length, drop, IsTrue, IsOk, IfOk, OnOk};
ghost use Rattle.std.specs.List.{Contains};
ghost use Rattle.fw_calls.specs.Weight.{weight};
ghost use Rattle.fw_journal.specs.Journal.{joined, open_sessions, weights};

use crate::sessions::{follow, is_among};
use crate::telling::push_told;
use fw_base::{Memory, Seq};
use fw_calls::{Entry, Signal, weight};
use std::alloc::Global;
use std::marker::Model;

/// What the daemon was asked, in order, and what sessions are told of each entry.
///
/// Contracts see the entries, their signals, and for how many more there is room for certain.
#[derive(Drop)]
pub struct Journal {
    entries: Vec<Entry>,
    told: Vec<Seq<Signal>>,
    // the sessions that are open, by when they began
    open: Vec<u64>,
    weight: u64,
}

impl Model for Journal {
    ghost use Rattle.std.specs.Prelude.{◌≡◌, ◌-◌, min, length, vec_len, vec_capacity};
    ghost use Rattle.fw_journal.specs.Journal.{Written, open_sessions, weights};

    ghost Value = { Written };

    ghost view = { λ j. record { entries = j.entries.items; told = j.told.items; spare = min (vec_capacity j.entries - vec_len j.entries) (min (vec_capacity j.told - vec_len j.told) (vec_capacity j.open - vec_len j.open)) } };

    ghost invariant = { λ j. (length j.told.items ≡ length j.entries.items) × (j.open.items ≡ open_sessions j.entries.items) × (j.weight ≡ weights j.entries.items j.told.items) };
}

impl Journal {
    /// A journal without entries. It takes no memory.
    #[tactic(auto, unfolding(crate::specs::Journal::opened_from, crate::specs::Journal::weights))]
    pub fn new(alloc: Global) -> Journal
        ensures entries { result.entries ≡ [] }
        ensures told { result.told ≡ [] }
    {
        Journal {
            entries: Vec::new(alloc),
            told: Vec::new(alloc),
            open: Vec::new(alloc),
            weight: 0,
        }
    }

    /// What holds of every journal: each entry has its signals.
    pub fn laws(&self)
        ensures { length self.now.told ≡ length self.now.entries }
    {
        let _ = &self.told;
    }

    /// The entries, in order.
    pub fn entries(&self) -> &[Entry]
        ensures { result.now ≡ self.now.entries }
    {
        self.entries.as_slice()
    }

    /// How many entries there are, which is the place of the next one.
    pub fn len(&self) -> u64
        ensures { result ≡ length self.now.entries }
    {
        self.entries.as_slice().len() as u64
    }

    /// How much the entries weigh together.
    pub fn weight(&self) -> u64
        ensures { result ≡ weights self.now.entries self.now.told }
    {
        self.weight
    }

    /// Whether a session has begun and not ended.
    pub fn is_open(&self, session: u64) -> bool
        ensures { IsTrue result ↔ Contains (open_sessions self.now.entries) session }
    {
        is_among(self.open.as_slice(), session)
    }

    /// Makes room for so many entries more.
    ///
    /// Refuses for want of memory alone, and never where there is room already.
    pub fn reserve(&mut self, count: usize) -> Result<(), Memory>
        ensures entries { self.new.entries ≡ self.old.entries }
        ensures told { self.new.told ≡ self.old.told }
        ensures room { OnOk result (count ≤ self.new.spare) }
        ensures kept { self.old.spare ≤ self.new.spare }
        ensures succeeds { count ≤ self.old.spare → IsOk result }
    {
        self.entries.reserve(count)?;
        self.told.reserve(count)?;
        self.open.reserve(count)?;
        Ok(())
    }

    /// Appends an entry with its signals. It takes no memory: there must be room for one more.
    pub fn push(&mut self, entry: Entry, signals: Seq<Signal>)
        requires room { 0 < self.old.spare }
        requires fits { weights self.old.entries self.old.told + weight entry.event signals < 2 ^ 64 }
        ensures entries { self.new.entries ≡ self.old.entries ++ entry ∷ [] }
        ensures told { self.new.told ≡ self.old.told ++ signals ∷ [] }
        ensures spare { self.old.spare ≤ self.new.spare + 1 }
    {
        let place = self.entries.as_slice().len() as u64;
        self.weight += weight(&entry.event, signals.as_slice());
        follow(&mut self.open, place, &entry.event);
        self.entries.push_reserved(entry);
        self.told.push_reserved(signals);
    }

    /// What a session is told that was told of all entries before a place: copies of the signals of the entries from there on.
    ///
    /// Refuses for want of memory alone, and never where there is no entry from there on.
    pub fn told_from(&self, alloc: Global, place: usize) -> Result<Seq<Signal>, Memory>
        requires { place ≤ length self.now.entries }
        ensures signals { IfOk result (λ signals. signals ≡ joined (drop place self.now.told)) }
        ensures nothing { place ≡ length self.now.entries → IsOk result }
    {
        let mut signals = Seq::new(alloc);
        let told = self.told.as_slice();
        if place == told.len() {
            return Ok(signals);
        }
        push_told(alloc, &told[place..], &mut signals)?;
        Ok(signals)
    }

    /// The entries, which takes no memory.
    pub fn into_entries(self) -> Vec<Entry>
        ensures { result.items ≡ self.entries }
    {
        let Journal { entries, .. } = self;
        entries
    }
}
