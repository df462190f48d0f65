//! The settings with which the daemon starts.
ghost use Rattle.std.specs.Prelude.{◌≡◌, IfOk};
ghost use Rattle.fw_settings.specs.Starting.{started};

use super::Settings;
use super::numbers::first_numbers;
use fw_base::{Memory, TryCopy};
use fw_model::{Config, Runtime};
use fw_timed::Timers;
use std::alloc::Global;

/// The settings with which the daemon starts from a configuration: it is kept and in force, without panic mode and without timers, at
/// the time 0; zones and policies have the numbers from 0 on, in order of their lists.
///
/// The settings are valid where the configuration is (`first_settings_are_valid`). Refuses for want of memory alone.
pub fn start(alloc: Global, config: Config) -> Result<Settings, Memory>
    ensures { IfOk result (λ settings. settings ≡ started config) }
{
    let zones = config.zones.as_slice().len();
    let policies = config.policies.as_slice().len();
    let zone_ids = first_numbers(alloc, zones)?;
    let policy_ids = first_numbers(alloc, policies)?;
    let in_force = config.copy(alloc)?;
    Ok(Settings {
        permanent: config,
        runtime: Runtime {
            panic: false,
            config: in_force,
        },
        timers: Timers::new(alloc),
        now: 0,
        zone_ids,
        policy_ids,
        next_zone: zones as u64,
        next_policy: policies as u64,
    })
}
