//! Which settings packets may meet.
ghost use Rattle.std.specs.Prelude.{◌≡◌, Some};
ghost use Rattle.std.specs.List.{list_any};
ghost use Rattle.fw_order.specs.Borrowed.{lent};
ghost use Rattle.fw_verdict.specs.Policies.{stands_for};
ghost use Rattle.fw_verdict.specs.Policies.End.{in_zone};
ghost use Rattle.lower_blocks.specs.Needed.{is_needed, is_told, stands_for_any};

use fw_base::Text;
use fw_model::{Config, Policy, Zone};
use fw_verdict::{End, stands_for};
use lower_dispatch::is_in_use;
use lower_hooks::{has_settings, has_walk};

/// Whether packets may belong to a zone that has settings.
pub fn is_told(config: &Config, zone: &Zone) -> bool
    ensures { result ≡ is_told config.now zone.now }
{
    is_in_use(config, zone) && has_walk(zone)
}

/// Whether a side of a policy stands for a zone.
fn stands_for_zone(side: &[Text], zone: &Zone) -> bool
    ensures { result ≡ stands_for side.now (in_zone (Some zone.now)) }
{
    stands_for(side, End::Zone(Some(zone)))
}

/// Whether a side of a policy stands for one of these zones.
fn stands_for_one(side: &[Text], zones: &[&Zone]) -> bool
    ensures { result ≡ list_any (λ zone. stands_for side.now (in_zone (Some zone.now))) zones.now }
{
    zones.iter().any(|zone| stands_for_zone(side, *zone))
}

/// Whether a side of a policy stands for the host or for one of these zones.
fn stands_for_any(side: &[Text], zones: &[&Zone]) -> bool
    ensures { result ≡ stands_for_any side.now (lent zones.now) }
{
    stands_for(side, End::Host) || stands_for_one(side, zones)
}

/// Whether packets of these zones may meet the settings of a policy.
pub fn is_needed(policy: &Policy, zones: &[&Zone]) -> bool
    ensures { result ≡ is_needed (lent zones.now) policy.now }
{
    has_settings(&policy.rules)
        && stands_for_any(policy.ingress.as_slice(), zones)
        && stands_for_any(policy.egress.as_slice(), zones)
}
