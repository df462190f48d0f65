//! The reader: one buffer, in which the bytes ahead stand, and the place of the line found last.
ghost use Rattle.std.specs.Prelude.{◌≡◌, ℕ, ◌+◌, ◌-◌, ◌<◌, ◌≤◌, ◌⊎◌, List, [], ◌++◌, length, None, is_some, IsSome, IfSome};
ghost use Rattle.std.specs.List.{before_first, after_first, position_or_len};
ghost use Rattle.fw_base.specs.Causes.{Rose};
ghost use Rattle.fw_input.specs.Lines.{is_lf};
ghost use Rattle.fw_input.specs.Reading.{decided, outlook, Advances, Judges, Steps};
ghost use Rattle.fw_input.specs.Refilling.{choice, Decides, HasLine, LastStep, ReadsOn, Refills};

use super::Advance;
use super::buffer::{Refill, fill, line_length};
use fw_base::Source;
use std::alloc::Global;
use std::marker::Model;

/// Reads the lines of a source. LF (byte 10) ends a line; the last line may lack it.
///
/// It holds the bytes ahead in one buffer, which never has more than one piece (65,536 bytes) above the
/// limit of a line.
///
/// Contracts see the bytes ahead, how many of the bytes from there on are within the input limit, the
/// line found last, and the limit of a line.
#[derive(Drop)]
pub struct LineReader {
    buffer: Vec<u8>,
    /// Where the bytes ahead begin in the buffer,
    start: usize,
    /// where their first LF is, or where they end if they have none,
    line_end: usize,
    /// and where they end.
    end: usize,
    /// Where the line found last begins in the buffer,
    found_start: usize,
    /// and where it ends.
    found_end: usize,
    budget: usize,
    line_limit: usize,
}

impl Model for LineReader {
    ghost use Rattle.fw_input.specs.Reading.{Reader};

    ghost Value = { Reader };

    ghost use Rattle.fw_input.specs.Fields.{reader_of, IsPlaced};

    ghost view = { reader_of };

    ghost invariant = { IsPlaced };
}

impl LineReader {
    /// A reader before the first byte of an input, which takes no memory yet.
    ///
    /// A line may have `line_limit` bytes, its LF not counted, and the input `input_limit`.
    pub fn new(alloc: Global, line_limit: usize, input_limit: usize) -> LineReader
        ensures ahead { result.ahead ≡ [] }
        ensures budget { result.budget ≡ input_limit }
        ensures line { result.line ≡ [] }
        ensures line_limit { result.line_limit ≡ line_limit }
    {
        LineReader {
            buffer: Vec::new(alloc),
            start: 0,
            line_end: 0,
            end: 0,
            found_start: 0,
            found_end: 0,
            budget: input_limit,
            line_limit,
        }
    }

    /// The line that the last advance found, without its LF; empty if the last advance found none.
    pub fn line(&self) -> &[u8]
        ensures { result.now ≡ self.now.line }
    {
        &self.buffer[self.found_start..self.found_end]
    }

    /// Whether the next advance needs no read.
    pub fn has_line(&self) -> bool
        ensures { result ≡ is_some (decided self.now) }
    {
        self.decided().is_some()
    }

    /// Goes on to the next line, and reads only while the bytes ahead don't decide what comes next.
    ///
    /// `Failed` comes only where the source's count of faults rose. After `Failed` and `Memory` no byte is
    /// lost and no whole line is at hand; the next advance goes on from there. An ending comes again at
    /// each further advance.
    pub fn advance<S: Source>(&mut self, source: &mut S) -> Advance
        ensures step { Advances result self.old self.new (S.left source.old) (S.left source.new) }
        ensures judged { Judges result self.new.line (outlook self.old (S.left source.old)) (outlook self.new (S.left source.new)) }
        ensures line_limit { self.new.line_limit ≡ self.old.line_limit }
        ensures end { result ≡ Advance.End → (self.new.ahead ≡ []) × IfSome (S.left source.new) (λ left. left ≡ []) }
        ensures spends { result ≡ Advance.Line → self.new.budget < self.old.budget }
        ensures short { result ≡ Advance.Line → length self.new.line ≤ self.new.line_limit }
        ensures no_line { (result ≡ Advance.Line → ⊥) → self.new.line ≡ [] }
        ensures no_read { IsSome (decided self.old) → (S.left source.new ≡ S.left source.old) × (S.faults source.new ≡ S.faults source.old) }
        ensures undecided { (result ≡ Advance.Failed) ⊎ (result ≡ Advance.Memory) → decided self.new ≡ None }
        ensures counted { S.faults source.old ≤ S.faults source.new }
        ensures cause { result ≡ Advance.Failed → Rose (S.faults source.old) (S.faults source.new) }
    {
        self.forget_line();
        match self.read_on(source) {
            Refill::Bytes => self.take_decided(),
            Refill::End => self.take_last(),
            Refill::Failed => Advance::Failed,
            Refill::Memory => Advance::Memory,
        }
    }

    /// Reads until the bytes ahead decide what comes next; `Bytes` says that they do.
    fn read_on<S: Source>(&mut self, source: &mut S) -> Refill
        requires { self.old.line ≡ [] }
        ensures reads { ReadsOn result self.old self.new (S.left source.old) (S.left source.new) }
        ensures no_read { IsSome (decided self.old) → (self.new ≡ self.old) × (S.left source.new ≡ S.left source.old) × (S.faults source.new ≡ S.faults source.old) }
        ensures counted { S.faults source.old ≤ S.faults source.new }
        ensures cause { result ≡ Refill.Failed → Rose (S.faults source.old) (S.faults source.new) }
    {
        while self.decided().is_none() {
            match self.refill(source) {
                Refill::Bytes => {}
                other => return other,
            }
        }
        Refill::Bytes
    }

    /// Takes what the bytes ahead decide.
    fn take_decided(&mut self) -> Advance
        requires decided { IsSome (decided self.old) }
        requires line { self.old.line ≡ [] }
        ensures step { (more : List ℕ) → Steps result self.old self.new (self.old.ahead ++ more) (self.new.ahead ++ more) }
        ensures answer { Decides result }
        ensures short { result ≡ Advance.Line → length self.new.line ≤ self.new.line_limit }
        ensures no_line { (result ≡ Advance.Line → ⊥) → self.new.line ≡ [] }
        ensures line_limit { self.new.line_limit ≡ self.old.line_limit }
    {
        let Some(answer) = self.decided() else {
            unreachable!()
        };
        match answer {
            Advance::Line => {
                self.take_line();
                Advance::Line
            }
            ending => ending,
        }
    }

    /// What the bytes ahead decide by themselves.
    fn decided(&self) -> Option<Advance>
        ensures { result ≡ decided self.now }
    {
        let first = self.line_end - self.start;
        let all = self.end - self.start;
        choose(self.line_limit, self.budget, first, all)
    }

    /// Lets the line found last go.
    fn forget_line(&mut self)
        ensures { self.new ≡ record self.old { line = [] } }
    {
        self.found_start = 0;
        self.found_end = 0;
    }

    /// Takes the first line ahead.
    fn take_line(&mut self)
        requires { HasLine self.old }
        ensures ahead { self.new.ahead ≡ after_first is_lf self.old.ahead }
        ensures line { self.new.line ≡ before_first is_lf self.old.ahead }
        ensures budget { self.new.budget ≡ self.old.budget - (length self.new.line + 1) }
        ensures line_limit { self.new.line_limit ≡ self.old.line_limit }
    {
        self.found_start = self.start;
        self.found_end = self.line_end;
        self.budget -= self.line_end - self.start + 1;
        self.start = self.line_end + 1;
        self.line_end = self.start + line_length(&self.buffer[self.start..self.end]);
    }

    /// Takes what stands ahead at the end of the input: a line without its LF, or nothing.
    fn take_last(&mut self) -> Advance
        requires undecided { decided self.old ≡ None }
        requires line { self.old.line ≡ [] }
        ensures { LastStep result self.old self.new }
    {
        if self.start == self.end {
            return Advance::End;
        }
        self.found_start = self.start;
        self.found_end = self.end;
        self.budget = self.budget.saturating_sub(self.end - self.start + 1);
        self.start = self.end;
        self.line_end = self.end;
        Advance::Line
    }

    /// Reads once, behind the bytes ahead.
    fn refill<S: Source>(&mut self, source: &mut S) -> Refill
        requires undecided { decided self.old ≡ None }
        requires line { self.old.line ≡ [] }
        ensures refills { Refills result self.old self.new (S.left source.old) (S.left source.new) }
        ensures counted { S.faults source.old ≤ S.faults source.new }
        ensures cause { result ≡ Refill.Failed → Rose (S.faults source.old) (S.faults source.new) }
    {
        let length = self.end - self.start;
        let (outcome, count) = fill(source, &mut self.buffer, self.start, self.end);
        self.start = 0;
        self.end = length + count;
        self.line_end = length + line_length(&self.buffer[length..self.end]);
        self.found_start = 0;
        self.found_end = 0;
        outcome
    }
}

/// What the bytes ahead decide, where `first` of all of them stand before their first LF.
fn choose(line_limit: usize, budget: usize, first: usize, all: usize) -> Option<Advance>
    ensures { result ≡ choice line_limit budget first all }
{
    let line = budget.min(first);
    if line > line_limit {
        Some(Advance::LineTooLong)
    } else if line < budget.min(all) {
        Some(Advance::Line)
    } else if all > budget {
        Some(Advance::InputTooLong)
    } else {
        None
    }
}
