//! The timers that go on where a zone has other settings.
ghost use Rattle.std.specs.Prelude.{◌≡◌, IfOk};
ghost use Rattle.fw_zone_settings.specs.Timers.{goes_on, going_on};

use fw_base::{Memory, TryCopy};
use fw_model::{Timed, Zone};
use fw_timed::Timers;
use fw_zone_edits::has_setting;
use std::alloc::Global;

/// Whether a timer goes on: it is of another zone, or of a setting that the zone has.
fn goes_on(zone: &Zone, timed: &Timed) -> bool
    ensures { result ≡ goes_on zone.now timed.now }
{
    timed.zone.as_str() != zone.name.as_str() || has_setting(&zone.rules, &timed.setting)
}

/// The timers that go on, in their order, where this is what became of their zone.
#[tactic(auto, unfolding(crate::specs::Timers::going_on))]
pub fn going_on(alloc: Global, zone: &Zone, timers: &[Timed]) -> Result<Timers, Memory>
    ensures { IfOk result (λ kept. kept ≡ going_on zone.now timers.now) }
{
    let mut kept = Timers::new(alloc);
    for timed in timers {
        if goes_on(zone, timed) {
            kept.add(timed.copy(alloc)?)?;
        }
    }
    Ok(kept)
}
