//! Zones and timeouts as the arguments of calls name them.
ghost use Rattle.std.specs.Prelude.{◌≡◌, ◌<◌, Some, Ok, length, slice_get, IfOk, MatchResult};
ghost use Rattle.std.specs.Fmt.{signed_decimal};
ghost use Rattle.fw_act.specs.Acts.{Reads, Stops};
ghost use Rattle.fw_zone_members.specs.Reading.{look_up, seconds_of};

use fw_act::{Stop, refuse};
use fw_base::{Memory, Text};
use fw_model::{Code, Config};
use fw_zone_edits::{FoundZone, zone_meant};
use std::alloc::Global;

/// The zone that a call names; an empty name is the default zone's. Refuses an unknown one.
#[tactic(auto, unfolding(crate::specs::Reading::look_up))]
pub fn find_zone<'a>(alloc: Global, config: &'a Config, name: &str) -> Result<FoundZone<'a>, Stop>
    ensures found { MatchResult result
        (λ found. look_up config.now name.now ≡ Ok (record { place = found.place; zone = found.zone.now }))
        (λ stop. Stops stop (look_up config.now name.now)) }
    ensures at { IfOk result (λ found. slice_get config.now.zones found.place ≡ Some found.zone.now) }
    ensures within { IfOk result (λ found. found.place < length config.now.zones) }
{
    match zone_meant(config, name) {
        Some(found) => Ok(found),
        None => Err(Stop::Refused(refuse(alloc, Code::InvalidZone, name)?)),
    }
}

/// A timeout in seconds. Refuses one below 0.
#[tactic(auto, unfolding(crate::specs::Reading::seconds_of))]
pub fn read_seconds(alloc: Global, timeout: i32) -> Result<u32, Stop>
    ensures { Reads result (seconds_of timeout) }
{
    if timeout < 0 {
        let text = decimal_text(alloc, timeout)?;
        return Err(Stop::Refused(refuse(alloc, Code::InvalidValue, text.as_str())?));
    }
    Ok(timeout.unsigned_abs())
}

/// A number in decimal.
fn decimal_text(alloc: Global, number: i32) -> Result<Text, Memory>
    ensures { IfOk result (λ text. text ≡ signed_decimal number) }
{
    Ok(Text::from_string(format!(in alloc; "{number}")?))
}
