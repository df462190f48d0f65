//! A source that holds its bytes in memory, gives them in cuts of a chosen size and fails at chosen reads.
ghost use Rattle.std.specs.Prelude.{◌≡◌, ◌≤◌, ◌<◌, Some, length, take, if◌then◌else◌, IfOk, OnErr, IsTrue, ◌↔◌, is_err};
ghost use Rattle.fw_base.specs.Causes.{HasCause};
ghost use Rattle.fw_base.specs.Streams.{Reads};
ghost use Rattle.fw_base.specs.Supply.{after_read, fails_next_read, next_count};

use super::{Failed, Source};
use std::marker::Model;

/// A source in memory.
#[derive(Drop)]
pub struct ListSource {
    bytes: Vec<u8>,
    given: usize,
    cut: usize,
    failing: Vec<u64>,
    reads: u64,
    faults: u64,
}

impl Model for ListSource {
    ghost use Rattle.std.specs.Prelude.{ℕ, ◌≤◌, ◌<◌, ◌^◌, vec_len, drop};
    ghost use Rattle.fw_base.specs.Supply.{Supply};

    ghost Value = { Supply };

    ghost view = { λ s. record { left = drop s.given s.bytes.items; cut = s.cut; failing = s.failing.items; reads = s.reads; faults = s.faults } };

    ghost invariant = { λ s. (s.given ≤ vec_len s.bytes) × (1 ≤ s.cut) };
}

impl ListSource {
    /// A source of these bytes that gives at most `cut` of them in a read. The reads whose numbers, from 1,
    /// stand in `failing` fail.
    pub fn new(bytes: Vec<u8>, cut: usize, failing: Vec<u64>) -> ListSource
        requires { 1 ≤ cut }
        ensures { result ≡ record { left = bytes.items; cut = cut; failing = failing.items; reads = 0; faults = 0 } }
    {
        ListSource {
            bytes,
            given: 0,
            cut,
            failing,
            reads: 0,
            faults: 0,
        }
    }
}

impl Source for ListSource {
    ghost left = { λ s. Some s.left };

    ghost faults = { λ s. s.faults };

    fn read(&mut self, into: &mut [u8]) -> Result<usize, Failed>
        requires { 0 < length into.old }
        ensures reads { Reads (Some self.old.left) (Some self.new.left) result into.new }
        ensures cause { HasCause self.old.faults self.new.faults result }
        ensures fails { IsTrue (is_err result) ↔ IsTrue (fails_next_read self.old) }
        ensures gives { IfOk result (λ count. count ≡ next_count self.old (length into.old)) }
        ensures after { self.new ≡ after_read self.old (length into.old) }
    {
        self.reads = self.reads.saturating_add(1);
        if self.failing.contains(&self.reads) {
            self.faults = self.faults.saturating_add(1);
            return Err(Failed);
        }
        let left = &self.bytes[self.given..];
        let count = self.cut.min(into.len()).min(left.len());
        into[..count].copy_from_slice(&left[..count]);
        self.given += count;
        Ok(count)
    }
}
