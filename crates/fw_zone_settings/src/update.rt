//! What a dict makes of a zone in force, before and as it comes into force.
ghost use Rattle.std.specs.Prelude.{◌≡◌, ◌<◌, length, IfOk};
ghost use Rattle.fw_act.specs.Acts.{Reads};
ghost use Rattle.fw_zone_settings.specs.Updates.{update_of, with_update};

use super::timers::going_on;
use fw_act::Stop;
use fw_calls::Dict;
use fw_dicts::read_zone_at;
use fw_model::Zone;
use fw_settings::Settings;
use fw_timed::Timers;
use fw_zone_members::find_zone;
use std::alloc::Global;

/// A zone as it will be at its place, and the timers that go on.
#[derive(Drop)]
pub struct Update {
    pub place: usize,
    pub zone: Zone,
    pub timers: Timers,
}

/// What a dict makes of the zone that a call names. Nothing changes yet.
#[tactic(auto, unfolding(crate::specs::Updates::update_of))]
pub fn read_update(
    alloc: Global,
    settings: &Settings,
    zone: &str,
    dict: &Dict,
) -> Result<Update, Stop>
    ensures reads { Reads result (update_of settings.entry.now zone.now dict.now) }
    ensures within { IfOk result (λ update. update.place < length settings.entry.now.runtime.config.zones) }
{
    let config = &settings.runtime.config;
    let found = find_zone(alloc, config, zone)?;
    let zone = read_zone_at(alloc, config, found.place, found.zone, dict)?;
    let timers = going_on(alloc, &zone, settings.timers.as_slice())?;
    Ok(Update {
        place: found.place,
        zone,
        timers,
    })
}

/// The zone comes into force, and the timers that don't go on end. It takes no memory.
pub fn put(settings: &mut Settings, update: Update)
    requires { update.place < length settings.old.runtime.config.zones }
    ensures { settings.new ≡ with_update settings.old update }
{
    let Update {
        place,
        zone,
        timers,
    } = update;
    *settings.runtime.config.zones.get_mut(place) = zone;
    settings.timers = timers;
}
