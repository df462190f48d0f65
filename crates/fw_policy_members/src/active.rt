//! Policies that apply to some packets.
ghost use Rattle.std.specs.Prelude.{◌≡◌, ◌&&◌};
ghost use Rattle.std.specs.List.{list_any};
ghost use Rattle.std.specs.Str.{bytes_eq};
ghost use Rattle.fw_policy.specs.Sides.{is_special};
ghost use Rattle.fw_policy_members.specs.Asking.{has_packets, is_active, is_active_side};
ghost use Rattle.fw_zone_members.specs.Asking.{is_active as is_active_zone};

use fw_base::Text;
use fw_model::{Policy, Zone};
use fw_policy::{ANY, HOST};
use fw_zone_members::is_active as is_active_zone;

/// Whether packets can meet a policy on both sides, beside these zones.
pub fn is_active(zones: &[Zone], policy: &Policy) -> bool
    ensures { result ≡ is_active zones.now policy.now }
{
    is_active_side(zones, policy.ingress.as_slice())
        && is_active_side(zones, policy.egress.as_slice())
}

/// Whether packets can meet one of the names of a side.
fn is_active_side(zones: &[Zone], names: &[Text]) -> bool
    ensures { result ≡ is_active_side zones.now names.now }
{
    names.iter().any(|name| has_packets(zones, name.as_str()))
}

/// Whether a name is `HOST`, `ANY`, or that of a zone with bindings.
fn has_packets(zones: &[Zone], name: &str) -> bool
    ensures { result ≡ has_packets zones.now name.now }
{
    is_special(name) || is_bound(zones, name)
}

fn is_special(name: &str) -> bool
    ensures { result ≡ is_special name.now }
{
    name == HOST || name == ANY
}

fn is_bound(zones: &[Zone], name: &str) -> bool
    ensures { result ≡ list_any (λ zone. bytes_eq zone.name name.now && is_active_zone zone) zones.now }
{
    zones
        .iter()
        .any(|zone| zone.name.as_str() == name && is_active_zone(zone))
}
