//! Timers that are due, in the order in which they end.
ghost use Rattle.std.specs.Prelude.{◌≡◌, IfOk};
ghost use Rattle.std.specs.List.{filter};
ghost use Rattle.fw_order.specs.Borrowed.{lent};
ghost use Rattle.fw_order.specs.Order.{in_order};
ghost use Rattle.fw_timed.specs.Timers.{ends_before, is_due};

use fw_base::{Memory, Seq, TryCopy};
use fw_model::Timed;
use std::alloc::Global;

/// Whether a timer's deadline is `now` or earlier.
pub fn is_due(now: u64, timed: &Timed) -> bool
    ensures { result ≡ is_due now timed.now }
{
    timed.deadline <= now
}

/// The timers whose deadline is `now` or earlier, in order of adding.
pub fn due_timers<'a>(
    alloc: Global,
    timers: &'a [Timed],
    now: u64,
) -> Result<Vec<&'a Timed>, Memory>
    ensures { IfOk result (λ found. lent found.items ≡ filter (is_due now) timers.now) }
{
    let mut found = Vec::new(alloc);
    for timed in timers {
        if is_due(now, timed) {
            found.push(timed)?;
        }
    }
    Ok(found)
}

/// Timers by their deadlines, the earliest first, and those of one deadline as they are listed.
pub fn by_deadline(alloc: Global, timers: Vec<&Timed>) -> Result<Seq<Timed>, Memory>
    ensures { IfOk result (λ ordered. ordered ≡ in_order ends_before (lent timers.entry.items)) }
{
    let ordered = sorted(timers)?;
    copied(alloc, ordered.as_slice())
}

fn sorted(timers: Vec<&Timed>) -> Result<Vec<&Timed>, Memory>
    ensures { IfOk result (λ ordered. lent ordered.items ≡ in_order ends_before (lent timers.entry.items)) }
{
    let mut ordered = timers;
    ordered.sort_by_key(|timed| timed.deadline)?;
    Ok(ordered)
}

/// Equal values of what references mean.
fn copied(alloc: Global, timers: &[&Timed]) -> Result<Seq<Timed>, Memory>
    ensures { IfOk result (λ copies. copies ≡ lent timers.now) }
{
    let mut copies = Seq::new(alloc);
    for timed in timers {
        let timed: &Timed = *timed;
        copies.push(timed.copy(alloc)?)?;
    }
    Ok(copies)
}
