//! What runs the lines of a script.
ghost use Rattle.std.specs.Prelude.{ℕ, List, Option, string_bytes};
ghost use Rattle.fw_run.specs.Language.{RunsLine, Step};

use fw_words::LineError;
use std::alloc::Global;

/// A machine that runs lines, one after another.
pub trait Machine {
    /// What a line prints and the machine after it, where the line is in the grammar.
    ghost step: { Self → List ℕ → Option (Step Self) };

    /// Runs a line, which comes without its LF, and appends what it prints.
    ///
    /// BadLine comes exactly for a line outside the grammar, which does nothing. For want of memory part of a line's text
    /// may stand there, and the machine is of no use but for being let go.
    fn run_line(&mut self, alloc: Global, line: &[u8], out: &mut String) -> Result<(), LineError>
        ensures { RunsLine result (step self.old line.now) self.old self.new (string_bytes out.old) (string_bytes out.new) };
}
