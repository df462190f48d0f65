//! What is told of a zone.
ghost use Rattle.std.specs.Prelude.{◌≡◌, [], ◌∷◌, IfOk};
ghost use Rattle.fw_zone_calls.specs.Told.{told_of};

use fw_answer::Answer;
use fw_base::{Memory, Seq, Text};
use fw_told::{Reply, Signal, Value};
use std::alloc::Global;

/// A zone's name as the first value of a signal or a reply.
pub fn zone_values(alloc: Global, zone: &str) -> Result<Seq<Value>, Memory>
    ensures { IfOk result (λ values. values ≡ Value.Text zone.now ∷ []) }
{
    let mut values = Seq::new(alloc);
    values.push(Value::Text(Text::of(alloc, zone)?))?;
    Ok(values)
}

/// One signal, and a reply with the zone's name.
pub fn told_of(alloc: Global, zone: &str, signal: Signal) -> Result<Answer, Memory>
    ensures { IfOk result (λ answer. answer ≡ told_of zone.now signal) }
{
    let mut signals = Seq::new(alloc);
    signals.push(signal)?;
    Ok(Answer {
        signals,
        reply: Reply::Ok(zone_values(alloc, zone)?),
    })
}
