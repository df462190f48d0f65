//! The zone that a call names.
ghost use Rattle.std.specs.Prelude.{◌≡◌, ◌<◌, Some, Ok, length, position, slice_get, IfOk, MatchResult};
ghost use Rattle.std.specs.Str.{bytes_eq};
ghost use Rattle.fw_zone_calls.specs.Calls.{look_up};
ghost use Rattle.fw_answer.specs.Refusals.{Stops};
ghost use Rattle.fw_zone_calls.specs.Zones.{meant};

use fw_answer::{Stop, refuse};
use fw_model::{Code, Config, Zone};
use std::alloc::Global;

/// A zone, and its place in the list of zones.
#[derive(Clone, Copy)]
pub struct FoundZone<'a> {
    pub place: usize,
    pub zone: &'a Zone,
}

/// The zone that a call names.
pub fn find_zone<'a>(alloc: Global, config: &'a Config, name: &str) -> Result<FoundZone<'a>, Stop>
    ensures found { MatchResult result
        (λ found. look_up config.now name.now ≡ Ok (record { place = found.place; zone = found.zone.now }))
        (λ stop. Stops stop (look_up config.now name.now)) }
    ensures at { IfOk result (λ found. slice_get config.now.zones found.place ≡ Some found.zone.now) }
    ensures within { IfOk result (λ found. found.place < length config.now.zones) }
{
    let zones = config.zones.as_slice();
    if let Some(place) = place_named(zones, meant(config, name)) {
        return Ok(FoundZone {
            place,
            zone: &zones[place],
        });
    }
    Err(Stop::Refused(refuse(alloc, Code::InvalidZone, name)?))
}

/// The name that is meant: an empty one is the default zone's.
fn meant<'a>(config: &'a Config, name: &'a str) -> &'a str
    ensures { result.now ≡ meant config.now name.now }
{
    if name.is_empty() {
        config.default_zone.as_str()
    } else {
        name
    }
}

/// The place of the first zone of a name.
fn place_named(zones: &[Zone], name: &str) -> Option<usize>
    ensures { result ≡ position (λ zone. bytes_eq zone.name name.now) zones.now }
{
    zones.iter().position(|zone| zone.name.as_str() == name)
}
