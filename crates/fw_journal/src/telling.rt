//! What sessions are told of entries.
ghost use Rattle.std.specs.Prelude.{◌≡◌, ◌++◌, OnOk};
ghost use Rattle.fw_journal.specs.Journal.{joined};

use fw_base::{Memory, Seq, TryCopy};
use fw_calls::Signal;
use std::alloc::Global;

/// Appends copies of signals.
///
/// Refuses for want of memory alone.
pub fn push_copies(alloc: Global, signals: &[Signal], out: &mut Seq<Signal>) -> Result<(), Memory>
    ensures { OnOk result (out.new ≡ out.old ++ signals.now) }
{
    for signal in signals {
        out.push(signal.copy(alloc)?)?;
    }
    Ok(())
}

/// Appends copies of the signals of entries, one after another.
#[tactic(auto, unfolding(crate::specs::Journal::joined))]
pub fn push_told(alloc: Global, told: &[Seq<Signal>], out: &mut Seq<Signal>) -> Result<(), Memory>
    ensures { OnOk result (out.new ≡ out.old ++ joined told.now) }
{
    for signals in told {
        push_copies(alloc, signals.as_slice(), out)?;
    }
    Ok(())
}
