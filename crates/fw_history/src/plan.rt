//! What an event needs before anything is done.
ghost use Rattle.std.specs.Prelude.{◌≡◌, ◌++◌, [], IfOk, IsOk, take};

use fw_base::{Memory, Seq};
use fw_calls::Signal;
use fw_journal::push_copies;
use fw_settings::Proposal;
use std::alloc::Global;

/// All that an event needs before anything is done, so that no memory is wanted any more.
#[derive(Drop)]
pub struct Plan {
    /// What is to be done.
    pub proposal: Proposal,
    /// What the session is told: what it wasn't told yet, and then what is told of the event.
    pub told: Seq<Signal>,
    /// How many of these it wasn't told yet before the event.
    pub earlier: usize,
}

/// Why an event isn't planned. Nothing has changed.
#[derive(Clone, Copy, Debug, PartialEq, Eq)]
pub enum Unplanned {
    /// Its entry would weigh `need`, and the journal has only `left`.
    Full { need: u64, left: u64 },
    Memory,
}

impl From<Memory> for Unplanned {
    ghost use Rattle.fw_history.specs.declared.plan.Unplanned.TheVariants.{Memory as OutOfMemory};

    ghost from_gives = { λ _ error. error ≡ OutOfMemory };

    fn from(_error: Memory) -> Unplanned {
        Unplanned::Memory
    }
}

/// Signals, and behind them copies of others.
///
/// Refuses for want of memory alone, and never where there are no others.
pub fn joined(alloc: Global, earlier: Seq<Signal>, own: &[Signal]) -> Result<Seq<Signal>, Memory>
    ensures joined { IfOk result (λ told. told ≡ earlier ++ own.now) }
    ensures nothing { own.now ≡ [] → IsOk result }
{
    if own.is_empty() {
        return Ok(earlier);
    }
    let mut told = earlier;
    push_copies(alloc, own, &mut told)?;
    Ok(told)
}

/// The first of some signals. It takes no memory.
pub fn first_of(signals: Seq<Signal>, count: usize) -> Seq<Signal>
    ensures { result ≡ take count signals }
{
    let mut items = signals.into_vec();
    items.truncate(count);
    Seq::from_vec(items)
}
