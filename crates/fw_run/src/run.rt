//! A whole run of a script: its lines until something ends it, with its text written as it goes.
ghost use Rattle.std.specs.Prelude.{◌≡◌, ℕ, ◌+◌, ◌≤◌, ◌^◌, ◌⊎◌, List, [], Option, IsNone, OnOk, IfSome};
ghost use Rattle.std.specs.Option.{option_map};
ghost use Rattle.fw_base.specs.Causes.{HasCause, Rose};
ghost use Rattle.fw_input.specs.Lines.{Judgement, judged};
ghost use Rattle.fw_input.specs.Reading.{decided, outlook};
ghost use Rattle.fw_run.specs.Endings.{Blames, Runs};
ghost use Rattle.fw_run.specs.Turns.{Flushes, Progress, Stopped};

use super::runner::Runner;
use super::{Ended, Machine};
use fw_base::{Failed, Sink, Source};
use fw_input::LineReader;
use std::alloc::Global;

/// The most bytes of a line, its LF not counted.
const LINE_LIMIT: usize = 1_048_576;

/// The most bytes of an input.
const INPUT_LIMIT: usize = 67_108_864;

/// How a run ended, and the machine in the end.
#[derive(Drop)]
pub struct Ran<M> {
    pub ended: Ended,
    pub machine: M,
}

/// Writes what was printed, unless a whole line is at hand: before a read, which may wait.
fn flush_before_read<M: Machine, O: Sink>(
    reader: &LineReader,
    runner: &mut Runner<M>,
    output: &mut O,
) -> Result<(), Failed>
    ensures flushes { Flushes result runner.old runner.new (O.written output.old) (O.written output.new) }
    ensures idle { OnOk result (IsNone (decided reader.now) → runner.new.unwritten ≡ []) }
    ensures cause { HasCause (O.faults output.old) (O.faults output.new) result }
{
    if reader.has_line() {
        return Ok(());
    }
    runner.flush(output)
}

/// Runs the lines of an input until something ends the run.
fn run_lines<M: Machine, I: Source, O: Sink>(
    alloc: Global,
    reader: &mut LineReader,
    runner: &mut Runner<M>,
    input: &mut I,
    output: &mut O,
) -> Ended
    requires { runner.old.number + reader.old.budget ≤ 2 ^ 62 }
    ensures stopped { (first : M) (lines : Option Judgement) (before : Option (List ℕ)) → Progress M.step first lines before runner.old (outlook reader.old (I.left input.old)) (O.written output.old)
        → Stopped M.step first result lines before runner.new (O.written output.new) }
    ensures blames { Blames (I.faults input.old) (I.faults input.new) (O.faults output.old) (O.faults output.new) result }
    ensures end { result ≡ Ended.Done → IfSome (I.left input.new) (λ left. left ≡ []) }
{
    'lines: loop {
        if flush_before_read(reader, runner, output).is_err() {
            return Ended::WriteFault;
        }
        if let Some(ended) = runner.take_line(alloc, reader, input) {
            return ended;
        }
    }
}

/// Writes what is left of the printed text, unless no more can be written.
fn write_rest<M: Machine, O: Sink>(ended: Ended, runner: &mut Runner<M>, output: &mut O) -> Ended
    ensures runs { (first : M) (lines : Option Judgement) (before : Option (List ℕ)) → Stopped M.step first ended lines before runner.old (O.written output.old)
        → Runs M.step first result lines before (O.written output.new) runner.new.state }
    ensures writes { O.faults output.old ≤ O.faults output.new }
    ensures write_fault { result ≡ Ended.WriteFault → (ended ≡ Ended.WriteFault) ⊎ Rose (O.faults output.old) (O.faults output.new) }
    ensures same { (result ≡ Ended.WriteFault) ⊎ (result ≡ ended) }
{
    match ended {
        Ended::WriteFault => Ended::WriteFault,
        Ended::Memory => Ended::Memory,
        other => match runner.flush(output) {
            Ok(()) => other,
            Err(Failed) => Ended::WriteFault,
        },
    }
}

/// Runs the script of an input from the beginning: its lines as they come, until something ends the run. What they print
/// is written before each read that may wait, and in the end.
///
/// Done, BadScript and InputTooLong come exactly as the input's bytes say. ReadFault and WriteFault come only where that
/// end's count of faults rose. After WriteFault and for want of memory a front of the text was written, and else all of it.
pub fn run_script<M: Machine, I: Source, O: Sink>(
    alloc: Global,
    machine: M,
    input: &mut I,
    output: &mut O,
) -> Ran<M>
    ensures runs { Runs M.step machine result.ended (option_map (judged LINE_LIMIT INPUT_LIMIT) (I.left input.old)) (O.written output.old) (O.written output.new) result.machine }
    ensures blames { Blames (I.faults input.old) (I.faults input.new) (O.faults output.old) (O.faults output.new) result.ended }
    ensures end { result.ended ≡ Ended.Done → IfSome (I.left input.new) (λ left. left ≡ []) }
{
    let mut reader = LineReader::new(alloc, LINE_LIMIT, INPUT_LIMIT);
    let mut runner = Runner::new(alloc, machine);
    let ended = run_lines(alloc, &mut reader, &mut runner, input, output);
    let ended = write_rest(ended, &mut runner, output);
    Ran {
        ended,
        machine: runner.into_machine(),
    }
}
