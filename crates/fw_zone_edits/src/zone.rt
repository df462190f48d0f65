//! The zone that a call names.
ghost use Rattle.std.specs.Prelude.{◌≡◌, ◌<◌, None, Some, length, position, slice_get, IfSome, MatchOption};
ghost use Rattle.std.specs.Str.{bytes_eq};
ghost use Rattle.fw_zone_edits.specs.Zones.{meant, zone_meant, zone_named};

use fw_model::{Config, Zone};

/// A zone, and its place in the list of zones.
#[derive(Clone, Copy)]
pub struct FoundZone<'a> {
    pub place: usize,
    pub zone: &'a Zone,
}

/// The zone that a call names: an empty name means the default zone.
pub fn zone_meant<'a>(config: &'a Config, name: &str) -> Option<FoundZone<'a>>
    ensures found { MatchOption result (zone_meant config.now name.now ≡ None)
        (λ found. zone_meant config.now name.now ≡ Some (record { place = found.place; zone = found.zone.now })) }
    ensures at { IfSome result (λ found. slice_get config.now.zones found.place ≡ Some found.zone.now) }
    ensures within { IfSome result (λ found. found.place < length config.now.zones) }
{
    zone_named(config.zones.as_slice(), meant(config, name))
}

/// The first zone of a name.
pub fn zone_named<'a>(zones: &'a [Zone], name: &str) -> Option<FoundZone<'a>>
    ensures found { MatchOption result (zone_named zones.now name.now ≡ None)
        (λ found. zone_named zones.now name.now ≡ Some (record { place = found.place; zone = found.zone.now })) }
    ensures at { IfSome result (λ found. slice_get zones.now found.place ≡ Some found.zone.now) }
    ensures within { IfSome result (λ found. found.place < length zones.now) }
{
    let place = place_named(zones, name)?;
    Some(FoundZone {
        place,
        zone: &zones[place],
    })
}

/// The name that is meant: an empty one is the default zone's.
fn meant<'a>(config: &'a Config, name: &'a str) -> &'a str
    ensures { result.now ≡ meant config.now name.now }
{
    if name.is_empty() {
        config.default_zone.as_str()
    } else {
        name
    }
}

/// The place of the first zone of a name.
fn place_named(zones: &[Zone], name: &str) -> Option<usize>
    ensures { result ≡ position (λ zone. bytes_eq zone.name name.now) zones.now }
{
    zones.iter().position(|zone| zone.name.as_str() == name)
}
