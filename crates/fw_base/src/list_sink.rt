//! A sink that holds in memory what was written, up to a chosen room, and fails at chosen writes.
ghost use Rattle.std.specs.Prelude.{◌≡◌, [], Some, IfOk, IsTrue, ◌↔◌, is_err};
ghost use Rattle.fw_base.specs.Causes.{HasCause};
ghost use Rattle.fw_base.specs.Streams.{Writes};
ghost use Rattle.fw_base.specs.Supply.{after_write, fails_next_write};

use super::{Failed, Memory, Sink};
use std::alloc::Global;
use std::marker::Model;

/// A sink in memory.
#[derive(Drop)]
pub struct ListSink {
    written: Vec<u8>,
    room: usize,
    failing: Vec<u64>,
    writes: u64,
    faults: u64,
}

impl Model for ListSink {
    ghost use Rattle.std.specs.Prelude.{ℕ, ◌≤◌, vec_len, vec_capacity};
    ghost use Rattle.fw_base.specs.Supply.{Store};

    ghost Value = { Store };

    ghost view = { λ s. record { written = s.written.items; room = s.room; failing = s.failing.items; writes = s.writes; faults = s.faults } };

    ghost invariant = { λ s. (vec_len s.written ≤ s.room) × (s.room ≤ vec_capacity s.written) };
}

impl ListSink {
    /// A sink with room for so many bytes, found at once. A write that doesn't fit writes nothing and fails,
    /// and so do the writes whose numbers, from 1, stand in `failing`.
    ///
    /// Refuses for want of memory alone.
    pub fn new(alloc: Global, room: usize, failing: Vec<u64>) -> Result<ListSink, Memory>
        ensures { IfOk result (λ sink. sink ≡ record { written = []; room = room; failing = failing.items; writes = 0; faults = 0 }) }
    {
        Ok(ListSink {
            written: Vec::with_capacity(alloc, room)?,
            room,
            failing,
            writes: 0,
            faults: 0,
        })
    }

    pub fn written(&self) -> &[u8]
        ensures { result.now ≡ self.now.written }
    {
        self.written.as_slice()
    }
}

impl Sink for ListSink {
    ghost written = { λ s. Some s.written };

    ghost faults = { λ s. s.faults };

    fn write(&mut self, piece: &[u8]) -> Result<(), Failed>
        ensures writes { Writes (Some self.old.written) (Some self.new.written) result piece.now }
        ensures cause { HasCause self.old.faults self.new.faults result }
        ensures fails { IsTrue (is_err result) ↔ IsTrue (fails_next_write self.old piece.now) }
        ensures after { self.new ≡ after_write self.old piece.now }
    {
        self.writes = self.writes.saturating_add(1);
        let is_listed = self.failing.contains(&self.writes);
        let has_room = piece.len() <= self.room - self.written.len();
        if is_listed || !has_room {
            self.faults = self.faults.saturating_add(1);
            return Err(Failed);
        }
        match self.written.extend_from_slice(piece) {
            Ok(()) => Ok(()),
            Err(_) => unreachable!(),
        }
    }
}
