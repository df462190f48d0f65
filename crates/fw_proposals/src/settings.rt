//! Whether all settings of the daemon are the same.
ghost use Rattle.std.specs.Prelude.{◌≡◌, ◌↔◌, IsTrue};

use fw_same::{same_config, same_objects, same_runtime};
use fw_settings::Settings;
use fw_timed::Timers;

fn same_timers(one: &Timers, other: &Timers) -> bool
    ensures { IsTrue result ↔ (one.now ≡ other.now) }
{
    same_objects(one.as_slice(), other.as_slice())
}

fn same_numbers(one: &[u64], other: &[u64]) -> bool
    ensures { IsTrue result ↔ (one.now ≡ other.now) }
{
    one == other
}

/// Whether all settings of the daemon are the same. It takes no memory.
#[tactic(auto, using(crate::proofs::Fields::settings_from_fields))]
pub fn same_settings(one: &Settings, other: &Settings) -> bool
    ensures { IsTrue result ↔ (one.entry.now ≡ other.entry.now) }
{
    same_config(&one.permanent, &other.permanent)
        && same_runtime(&one.runtime, &other.runtime)
        && same_timers(&one.timers, &other.timers)
        && one.now == other.now
        && same_numbers(one.zone_ids.as_slice(), other.zone_ids.as_slice())
        && same_numbers(one.policy_ids.as_slice(), other.policy_ids.as_slice())
        && one.next_zone == other.next_zone
        && one.next_policy == other.next_policy
}
