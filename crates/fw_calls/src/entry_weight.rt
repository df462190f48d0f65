//! How much an entry of the journal weighs.
ghost use Rattle.std.specs.Prelude.{◌≡◌};
ghost use Rattle.fw_calls.specs.Weight.{weight};

use super::size::{Measure, sum, total};
use super::{Arg, Event, Signal};

/// What an entry weighs besides its event and its signals.
const ENTRY: u64 = 64;

/// What a signal weighs besides its arguments.
const SIGNAL: u64 = 32;

impl Measure for Event {
    ghost use Rattle.fw_calls.specs.Weight.{event_size};

    ghost size = { event_size };

    #[tactic(auto, unfolding(crate::specs::Weight::event_size))]
    fn size(&self) -> u64 {
        match self {
            Event::Open => 0,
            Event::Call { session: _, call } => call.size(),
            Event::Tick { session: _, now: _ } => 8,
            Event::Link {
                session: _,
                up: _,
                name,
            } => name.as_str().len() as u64,
            Event::Shut { session: _ } => 0,
        }
    }
}

impl Measure for Arg {
    ghost use Rattle.fw_calls.specs.Weight.{arg_size};

    ghost size = { arg_size };

    fn size(&self) -> u64 {
        match self {
            Arg::Text(text) => text.size(),
            Arg::Int(_) => 8,
            Arg::Zone(zone) => zone.size(),
            Arg::Policy(policy) => policy.size(),
        }
    }
}

impl Measure for Signal {
    ghost use Rattle.fw_calls.specs.Weight.{signal_size};

    ghost size = { signal_size };

    #[tactic(auto, unfolding(crate::specs::Weight::signal_size), using(crate::proofs::Capped::capped_behind))]
    fn size(&self) -> u64 {
        sum(SIGNAL, total(self.args.as_slice()))
    }
}

/// How much the entry of an event with these signals weighs, or 2^64 - 1 where that is less: 64, the size of the event, and for each
/// signal 32 and the size of its arguments. A size is the number of bytes of all texts, and 8 for each number and for each element of
/// a list; the settings of a zone or a policy in a signal have 256, the bytes of their notes, 64 for each element of each list, and
/// 512 more for each rich rule.
#[tactic(auto, using(crate::proofs::Capped::capped_sum, crate::proofs::Capped::capped_behind))]
pub fn weight(event: &Event, signals: &[Signal]) -> u64
    ensures { result ≡ weight event.now signals.now }
{
    sum(sum(ENTRY, event.size()), total(signals))
}
