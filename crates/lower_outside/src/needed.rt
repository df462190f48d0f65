//! Which settings do anything outside the filter.
ghost use Rattle.std.specs.Prelude.{◌≡◌};
ghost use Rattle.std.specs.List.{list_any};
ghost use Rattle.fw_verdict.specs.Outside.{stands_at};
ghost use Rattle.lower_outside.specs.Needed.{has_changes};

use fw_model::{Rich, Rules};
use fw_verdict::{Place, Side, stands_at};

fn any_at(place: Place, rules: &[Rich]) -> bool
    ensures { result ≡ list_any (stands_at place) rules.now }
{
    rules.iter().any(|rule| stands_at(place, rule))
}

/// Whether settings do anything on a side.
pub fn has_changes(side: Side, settings: &Rules) -> bool
    ensures { result ≡ has_changes side settings.now }
{
    let rich = settings.rich.as_slice();
    match side {
        Side::Marked => any_at(Place::Marks, rich),
        Side::Translated => {
            !settings.forwards.as_slice().is_empty()
                || any_at(Place::ForwardsBefore, rich)
                || any_at(Place::ForwardsBehind, rich)
        }
        Side::Leaving => settings.masquerade || any_at(Place::Masquerades, rich),
    }
}
