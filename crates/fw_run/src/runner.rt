//! A run in its middle: the machine, the number of the next line, and what was printed and isn't written.
ghost use Rattle.std.specs.Prelude.{◌≡◌, ◌+◌, ◌≤◌, ◌<◌, ◌^◌, [], None, Some, IsNone, IfSome, IfNone};
ghost use Rattle.fw_base.specs.Causes.{HasCause, Rose};
ghost use Rattle.fw_input.specs.Reading.{decided, outlook};
ghost use Rattle.fw_run.specs.Turns.{Flushes, RunsBytes, TakesLine};

use super::{Ended, Machine};
use fw_base::{Failed, Sink, Source};
use fw_input::{Advance, LineReader};
use fw_words::LineError;
use std::alloc::Global;
use std::marker::Model;

/// A run in its middle.
#[derive(Drop)]
pub struct Runner<M> {
    machine: M,
    number: u64,
    unwritten: String,
}

impl<M> Model for Runner<M> {
    ghost use Rattle.std.specs.String.{string_bytes};
    ghost use Rattle.fw_run.specs.Turns.{Middle};

    ghost Value = { Middle M };

    ghost view = { λ r. record { state = r.machine; number = r.number; unwritten = string_bytes r.unwritten } };
}

impl<M: Machine> Runner<M> {
    /// A run before its first line.
    pub fn new(alloc: Global, machine: M) -> Runner<M>
        ensures { result ≡ record { state = machine; number = 1; unwritten = [] } }
    {
        Runner {
            machine,
            number: 1,
            unwritten: String::new(alloc),
        }
    }

    /// The machine, and what wasn't written is let go.
    pub fn into_machine(self) -> M
        ensures { result ≡ self.state }
    {
        let Runner {
            machine,
            number: _,
            unwritten: _,
        } = self;
        machine
    }

    /// Takes the next line and runs it, unless something ends the run. It reads only where no whole line is at hand, and
    /// then all that was printed is written.
    pub fn take_line<I: Source>(
        &mut self,
        alloc: Global,
        reader: &mut LineReader,
        input: &mut I,
    ) -> Option<Ended>
        requires number { self.old.number < 2 ^ 63 }
        requires written { IsNone (decided reader.old) → self.old.unwritten ≡ [] }
        ensures takes { TakesLine M.step result self.old self.new (outlook reader.old (I.left input.old)) (outlook reader.new (I.left input.new)) }
        ensures number { IfNone result (self.new.number + reader.new.budget ≤ self.old.number + reader.old.budget) }
        ensures spends { IfNone result (reader.new.budget < reader.old.budget) }
        ensures counted { I.faults input.old ≤ I.faults input.new }
        ensures read_fault { result ≡ Some Ended.ReadFault → Rose (I.faults input.old) (I.faults input.new) }
        ensures write_fault { result ≡ Some Ended.WriteFault → ⊥ }
        ensures end { result ≡ Some Ended.Done → IfSome (I.left input.new) (λ left. left ≡ []) }
    {
        match reader.advance(input) {
            Advance::Line => self.run_line(alloc, reader.line()),
            Advance::End => Some(Ended::Done),
            Advance::LineTooLong => Some(Ended::BadScript { line: self.number }),
            Advance::InputTooLong => Some(Ended::InputTooLong),
            Advance::Failed => Some(Ended::ReadFault),
            Advance::Memory => Some(Ended::Memory),
        }
    }

    /// Runs a line's bytes.
    fn run_line(&mut self, alloc: Global, line: &[u8]) -> Option<Ended>
        requires { self.old.number < 2 ^ 63 }
        ensures { RunsBytes M.step result line.now self.old self.new }
    {
        match self.machine.run_line(alloc, line, &mut self.unwritten) {
            Ok(()) => {
                self.number += 1;
                None
            }
            Err(LineError::BadLine) => Some(Ended::BadScript { line: self.number }),
            Err(LineError::Memory) => Some(Ended::Memory),
        }
    }

    /// Writes what was printed. After a fault a front of it was written, and nothing is kept.
    pub fn flush<O: Sink>(&mut self, output: &mut O) -> Result<(), Failed>
        ensures flushes { Flushes result self.old self.new (O.written output.old) (O.written output.new) }
        ensures empty { self.new.unwritten ≡ [] }
        ensures cause { HasCause (O.faults output.old) (O.faults output.new) result }
    {
        if self.unwritten.is_empty() {
            return Ok(());
        }
        let written = output.write(self.unwritten.as_bytes());
        self.unwritten.clear();
        written
    }
}
