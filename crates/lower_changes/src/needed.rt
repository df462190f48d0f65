//! Which settings need chains.
ghost use Rattle.std.specs.Prelude.{◌≡◌, Some};
ghost use Rattle.std.specs.List.{list_any};
ghost use Rattle.fw_order.specs.Borrowed.{lent};
ghost use Rattle.fw_verdict.specs.Policies.{stands_for};
ghost use Rattle.fw_verdict.specs.Policies.End.{in_zone};
ghost use Rattle.lower_changes.specs.Needed.{ends_of, is_needed};

use fw_base::Text;
use fw_model::{Policy, Zone};
use fw_verdict::{End, Side, stands_for};
use lower_outside::has_changes;

/// The ends of a policy by which it takes part in a step.
fn ends_of(side: Side, policy: &Policy) -> &[Text]
    ensures { result.now ≡ ends_of side policy.now }
{
    match side {
        Side::Marked => policy.ingress.as_slice(),
        Side::Translated => policy.ingress.as_slice(),
        Side::Leaving => policy.egress.as_slice(),
    }
}

/// Whether an end of a policy stands for a zone.
fn stands_for_zone(ends: &[Text], zone: &Zone) -> bool
    ensures { result ≡ stands_for ends.now (in_zone (Some zone.now)) }
{
    stands_for(ends, End::Zone(Some(zone)))
}

/// Whether an end of a policy stands for one of these zones.
fn stands_for_one(ends: &[Text], zones: &[&Zone]) -> bool
    ensures { result ≡ list_any (λ zone. stands_for ends.now (in_zone (Some zone.now))) zones.now }
{
    zones.iter().any(|zone| stands_for_zone(ends, *zone))
}

/// Whether a policy does anything on a side for packets of one of these zones.
pub fn is_needed(side: Side, zones: &[&Zone], policy: &Policy) -> bool
    ensures { result ≡ is_needed side (lent zones.now) policy.now }
{
    has_changes(side, &policy.rules) && stands_for_one(ends_of(side, policy), zones)
}
