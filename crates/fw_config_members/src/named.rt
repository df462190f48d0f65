//! Permanent zones and policies by their names.
ghost use Rattle.std.specs.Prelude.{◌≡◌, is_some};
ghost use Rattle.fw_config_members.specs.Paths.{policy_number, policy_place, zone_number};

use fw_model::Policy;
use fw_settings::Settings;
use fw_zone_edits::zone_named;

/// The number of the permanent zone of a name.
#[tactic(auto, unfolding(crate::specs::Paths::zone_number))]
pub fn zone_number(settings: &Settings, name: &str) -> Option<u64>
    ensures { result ≡ zone_number settings.entry.now name.now }
{
    match zone_named(settings.permanent.zones.as_slice(), name) {
        Some(found) => settings.zone_ids.as_slice().get(found.place).copied(),
        None => None,
    }
}

/// The number of the permanent policy of a name.
#[tactic(auto, unfolding(crate::specs::Paths::policy_number))]
pub fn policy_number(settings: &Settings, name: &str) -> Option<u64>
    ensures { result ≡ policy_number settings.entry.now name.now }
{
    match policy_place(settings.permanent.policies.as_slice(), name) {
        Some(place) => settings.policy_ids.as_slice().get(place).copied(),
        None => None,
    }
}

/// The place of the first policy of a name.
pub fn policy_place(policies: &[Policy], name: &str) -> Option<usize>
    ensures { result ≡ policy_place policies.now name.now }
{
    policies
        .iter()
        .position(|policy| policy.name.as_str() == name)
}
