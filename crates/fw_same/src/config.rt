//! Configurations.
ghost use Rattle.std.specs.Prelude.{◌≡◌, ◌↔◌, IsTrue};

use crate::lists::same_objects;
use fw_model::{Config, Runtime};

/// Whether two configurations are one. It takes no memory.
#[tactic(auto, using(crate::proofs::Fields::config_from_fields))]
pub fn same_config(one: &Config, other: &Config) -> bool
    ensures { IsTrue result ↔ (one.now ≡ other.now) }
{
    one.default_zone == other.default_zone
        && one.log_denied == other.log_denied
        && same_objects(one.zones.as_slice(), other.zones.as_slice())
        && same_objects(one.policies.as_slice(), other.policies.as_slice())
        && same_objects(one.services.as_slice(), other.services.as_slice())
        && same_objects(one.ipsets.as_slice(), other.ipsets.as_slice())
}

/// Whether the settings in force are the same. It takes no memory.
#[tactic(auto, using(crate::proofs::Fields::runtime_from_fields))]
pub fn same_runtime(one: &Runtime, other: &Runtime) -> bool
    ensures { IsTrue result ↔ (one.now ≡ other.now) }
{
    one.panic == other.panic && same_config(&one.config, &other.config)
}
