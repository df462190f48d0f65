//! Calls that invert a zone's ICMP blocks.
ghost use Rattle.std.specs.Prelude.{◌≡◌, [], ◌∷◌, IfOk};
ghost use Rattle.fw_zone_calls.specs.Inversion.{inversion_call};
ghost use Rattle.fw_answer.specs.Refusals.{Answers};
ghost use Rattle.fw_zone_calls.specs.Told.{told_of};

use super::told::{told_of, zone_values};
use fw_answer::{Answer, Stop, refuse, value_answer};
use fw_base::Memory;
use fw_call::Verb;
use fw_model::{Code, Zone};
use fw_told::{Signal, SignalKind, Value};
use std::alloc::Global;

const SUBJECT: &str = "icmp-block-inversion";

/// A call on the inversion of a zone's ICMP blocks.
pub fn inversion_call(alloc: Global, zone: &mut Zone, verb: Verb) -> Result<Answer, Stop>
    ensures { Answers zone.old zone.new result (inversion_call zone.old verb) }
{
    match verb {
        Verb::Add => {
            if zone.inversion {
                return Err(Stop::Refused(refuse(alloc, Code::AlreadyEnabled, SUBJECT)?));
            }
            let told = inverted(alloc, zone, SignalKind::ZoneIcmpBlockInversionAdded)?;
            zone.inversion = true;
            Ok(told)
        }
        Verb::Remove => {
            if !zone.inversion {
                return Err(Stop::Refused(refuse(alloc, Code::NotEnabled, SUBJECT)?));
            }
            let told = inverted(alloc, zone, SignalKind::ZoneIcmpBlockInversionRemoved)?;
            zone.inversion = false;
            Ok(told)
        }
        Verb::Query => Ok(value_answer(alloc, Value::Bool(zone.inversion))?),
    }
}

/// What is told of a zone whose ICMP blocks were inverted, or are no more.
fn inverted(alloc: Global, zone: &Zone, kind: SignalKind) -> Result<Answer, Memory>
    ensures { IfOk result (λ answer. answer ≡ told_of zone.now.name (record { kind = kind; values = Value.Text zone.now.name ∷ [] })) }
{
    let values = zone_values(alloc, zone.name.as_str())?;
    told_of(alloc, zone.name.as_str(), Signal { kind, values })
}
