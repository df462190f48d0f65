//! Lines that are logged, where somebody asks for them.
ghost use Rattle.std.specs.Prelude.{◌≡◌, [], ◌∷◌, ◌++◌, MatchResult, OnOk, is_some, true};
ghost use Rattle.nf_chains.specs.Runs.{noted};

use fw_addr::LogLine;
use fw_base::{Memory, Seq};

/// Keeps a line.
pub fn note(journal: &mut Option<Seq<LogLine>>, line: &LogLine) -> Result<(), Memory>
    ensures { MatchResult result (λ done. journal.new ≡ noted (line.now ∷ []) journal.old)
        (λ error. is_some journal.old ≡ true) }
{
    match journal.take() {
        Some(mut lines) => {
            let pushed = push_line(&mut lines, line);
            *journal = Some(lines);
            pushed
        }
        None => Ok(()),
    }
}

fn push_line(lines: &mut Seq<LogLine>, line: &LogLine) -> Result<(), Memory>
    ensures { OnOk result (lines.new ≡ lines.old ++ line.now ∷ []) }
{
    lines.push(line.clone()?)
}
