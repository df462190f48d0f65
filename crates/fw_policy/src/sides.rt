//! The two sides of a policy.
ghost use Rattle.std.specs.Prelude.{◌≡◌};
ghost use Rattle.std.specs.List.{list_any};
ghost use Rattle.std.specs.Str.{bytes_eq};
ghost use Rattle.fw_policy.specs.Sides.{first_unknown, is_known, is_only, is_special, stand_alone};

use fw_base::Text;
use fw_model::Zone;

/// The name of the host itself.
pub const HOST: &str = "HOST";

/// The name of every zone.
pub const ANY: &str = "ANY";

fn is_special(name: &str) -> bool
    ensures { result ≡ is_special name.now }
{
    name == HOST || name == ANY
}

fn is_zone(zones: &[Zone], name: &str) -> bool
    ensures { result ≡ list_any (λ zone. bytes_eq zone.name name.now) zones.now }
{
    zones.iter().any(|zone| zone.name.as_str() == name)
}

fn is_known(zones: &[Zone], name: &str) -> bool
    ensures { result ≡ is_known zones.now name.now }
{
    is_special(name) || is_zone(zones, name)
}

/// The place of the first name that is neither a zone's nor `HOST` nor `ANY`.
pub fn first_unknown(zones: &[Zone], names: &[Text]) -> Option<usize>
    ensures { result ≡ first_unknown zones.now names.now }
{
    names
        .iter()
        .position(|name| !is_known(zones, name.as_str()))
}

fn has_special(names: &[Text]) -> bool
    ensures { result ≡ list_any is_special names.now }
{
    names.iter().any(|name| is_special(name.as_str()))
}

/// Whether `HOST` and `ANY` stand alone on a side, if they stand there.
pub fn stand_alone(names: &[Text]) -> bool
    ensures { result ≡ stand_alone names.now }
{
    names.len() == 1 || !has_special(names)
}

/// Whether a side is this one name.
pub fn is_only(name: &str, names: &[Text]) -> bool
    ensures { result ≡ is_only name.now names.now }
{
    match names {
        [only] => only.as_str() == name,
        _ => false,
    }
}
