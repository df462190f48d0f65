//! The one call that the program makes.
ghost use Rattle.std.specs.Prelude.{◌≡◌, ◌↔◌, false, true, [], IfSome, map};
ghost use Rattle.std.specs.Option.{option_map};
ghost use Rattle.std.specs.String.{string_bytes};
ghost use Rattle.fw_base.specs.Causes.{Rose};
ghost use Rattle.fw_firewall.specs.Script.{first_state, step};
ghost use Rattle.fw_input.specs.Lines.{judged};
ghost use Rattle.fw_script.specs.Ran.{HasRun, IsUntouched, input_limit, line_limit};
ghost use Rattle.fw_script.specs.Words.{is_run};

use super::Status;
use super::words::is_run;
use fw_base::{Sink, Source};
use fw_firewall::Firewall;
use fw_run::run_script;
use std::alloc::Global;

/// What a run leaves: how it ended.
#[derive(Clone, Copy, Debug, PartialEq, Eq)]
pub struct Ran {
    pub status: Status,
}

/// Runs the program on the words of its command line: `run` reads a script from the input, runs its lines as they
/// come, and writes what they print to the output.
///
/// The first status that is met ends the run. Usage comes exactly where the words are other words, and then nothing is
/// read or written. Done says that the whole input was read; Done, BadScript and InputTooLong come exactly as the
/// input's bytes say. ReadFault and WriteFault come only where the input's or the output's count of faults rose. All that
/// the lines printed that ran was written, but for a front of it after WriteFault and for want of memory.
pub fn top_run<I: Source, O: Sink>(
    alloc: Global,
    words: &[String],
    input: &mut I,
    output: &mut O,
) -> Ran
    ensures usage { (result.status ≡ Status.Usage) ↔ (is_run (map string_bytes words.now) ≡ false) }
    ensures unused { result.status ≡ Status.Usage → IsUntouched (I.left input.old) (I.left input.new) (I.faults input.old) (I.faults input.new)
        × IsUntouched (O.written output.old) (O.written output.new) (O.faults output.old) (O.faults output.new) }

    // The lines that ran, and what was written of their text.
    ensures ran { is_run (map string_bytes words.now) ≡ true → HasRun result.status (option_map (judged line_limit input_limit) (I.left input.old)) (O.written output.old) (O.written output.new) }
    ensures done { result.status ≡ Status.Done → IfSome (I.left input.new) (λ left. left ≡ []) }
    ensures read_fault { result.status ≡ Status.ReadFault → Rose (I.faults input.old) (I.faults input.new) }
    ensures write_fault { result.status ≡ Status.WriteFault → Rose (O.faults output.old) (O.faults output.new) }
{
    Ran {
        status: if is_run(words) {
            run(alloc, input, output)
        } else {
            Status::Usage
        },
    }
}

/// Runs the script of the input on the built-in settings.
#[tactic(auto, using(crate::proofs::Nothing::nothing_ran))]
fn run<I: Source, O: Sink>(alloc: Global, input: &mut I, output: &mut O) -> Status
    ensures ran { HasRun result (option_map (judged line_limit input_limit) (I.left input.old)) (O.written output.old) (O.written output.new) }
    ensures done { result ≡ Status.Done → IfSome (I.left input.new) (λ left. left ≡ []) }
    ensures read_fault { result ≡ Status.ReadFault → Rose (I.faults input.old) (I.faults input.new) }
    ensures write_fault { result ≡ Status.WriteFault → Rose (O.faults output.old) (O.faults output.new) }
{
    match Firewall::new(alloc) {
        Ok(firewall) => Status::of(run_script(alloc, firewall, input, output).ended),
        Err(_) => Status::Memory,
    }
}
