//! Settings of zones that end by themselves.
ghost use Rattle.std.specs.Prelude.{◌≡◌, ◌<◌, Some, length, slice_get};
ghost use Rattle.fw_model.specs.declared.zone.Zone.{Zone};
ghost use Rattle.fw_zone_edits.specs.Endings.{all_ended, ended, ended_in};

use super::setting::leave_out;
use super::zone::zone_named;
use fw_base::Seq;
use fw_model::{Setting, Timed, Zone};

/// The settings of these timers end, one after another. It takes no memory.
pub fn end_all(zones: &mut Seq<Zone>, timers: &[Timed])
    ensures { zones.new ≡ all_ended zones.old timers.now }
{
    for timed in timers {
        end(zones, timed);
    }
}

/// The setting of a timer ends: it leaves the first zone of its name, if there is one and has it. It takes no memory.
pub fn end(zones: &mut Seq<Zone>, timed: &Timed)
    ensures { zones.new ≡ ended zones.old timed.now }
{
    match zone_named(zones.as_slice(), timed.zone.as_str()) {
        Some(found) => {
            let place = found.place;
            end_at(zones, place, timed)
        }
        None => {}
    }
}

/// The same in the zone at a place.
fn end_at(zones: &mut Seq<Zone>, place: usize, timed: &Timed)
    requires { place < length zones.old }
    ensures { (zone : Zone) → slice_get zones.old place ≡ Some zone
        → zones.new ≡ ended_in zones.old timed.now (Some (record { place = place; zone = zone })) }
{
    leave_out(&mut zones.get_mut(place).rules, &timed.setting);
}
