//! Edits of the zone at a place, with what their refusals name.
ghost use Rattle.std.specs.Prelude.{◌≡◌, ◌<◌, Some, length, slice_get, slice_set, OnErr, OnOk};
ghost use Rattle.fw_act.specs.Acts.{Makes, refused_as};
ghost use Rattle.fw_model.specs.declared.zone.Zone.{Zone};
ghost use Rattle.fw_zone_edits.specs.Entries.{bound, moved, unbound};
ghost use Rattle.fw_zone_edits.specs.Settings.{added_at, removed_at};
ghost use Rattle.fw_zone_edits.specs.Texts.{setting_text};

use fw_act::{EditError, Stop, refuse};
use fw_base::{Memory, Seq};
use fw_model::{Setting, Zone};
use fw_zone_edits::{Entry, add_at, bind, move_to, remove_at, setting_text, unbind};
use std::alloc::Global;

/// Adds a setting to the zone at a place. A refusal names its canonical text.
pub fn add_setting_at(
    alloc: Global,
    zones: &mut Seq<Zone>,
    place: usize,
    setting: Setting,
) -> Result<(), Stop>
    requires { place < length zones.old }
    ensures makes { (zone : Zone) → slice_get zones.old place ≡ Some zone
        → Makes zones.new result (refused_as (setting_text setting) (added_at zones.old (record { place = place; zone = zone }) setting)) }
    ensures err { OnErr result (zones.new ≡ zones.old) }
{
    let text = setting_text(alloc, &setting)?;
    match add_at(zones, place, setting) {
        Ok(()) => Ok(()),
        Err(EditError::Refused(code)) => { Err(Stop::Refused(refuse(alloc, code, text.as_str())?)) }
        Err(EditError::Memory) => Err(Stop::Memory),
    }
}

/// Removes a setting from the zone at a place. A refusal names its canonical text.
pub fn remove_setting_at(
    alloc: Global,
    zones: &mut Seq<Zone>,
    place: usize,
    setting: &Setting,
) -> Result<(), Stop>
    requires { place < length zones.old }
    ensures makes { (zone : Zone) → slice_get zones.old place ≡ Some zone
        → Makes zones.new result (refused_as (setting_text setting.now) (removed_at zones.old (record { place = place; zone = zone }) setting.now)) }
    ensures err { OnErr result (zones.new ≡ zones.old) }
{
    match remove_at(zones, place, setting) {
        Ok(()) => Ok(()),
        Err(EditError::Refused(code)) => {
            let text = setting_text(alloc, setting)?;
            Err(Stop::Refused(refuse(alloc, code, text.as_str())?))
        }
        Err(EditError::Memory) => Err(Stop::Memory),
    }
}

/// Binds an entry to the zone at a place. A refusal names the argument as it came.
pub fn bind_at(
    alloc: Global,
    zones: &mut Seq<Zone>,
    place: usize,
    entry: Entry,
    argument: &str,
) -> Result<(), Stop>
    requires { place < length zones.old }
    ensures makes { (zone : Zone) → slice_get zones.old place ≡ Some zone
        → Makes zones.new result (refused_as argument.now (bound zones.old (record { place = place; zone = zone }) entry)) }
    ensures err { OnErr result (zones.new ≡ zones.old) }
{
    match bind(zones, place, entry) {
        Ok(()) => Ok(()),
        Err(EditError::Refused(code)) => Err(Stop::Refused(refuse(alloc, code, argument)?)),
        Err(EditError::Memory) => Err(Stop::Memory),
    }
}

/// Takes an entry from the zone at a place. A refusal names the argument as it came.
pub fn unbind_at(
    alloc: Global,
    zones: &mut Seq<Zone>,
    place: usize,
    entry: &Entry,
    argument: &str,
) -> Result<(), Stop>
    requires { place < length zones.old }
    ensures makes { (zone : Zone) → slice_get zones.old place ≡ Some zone
        → Makes zones.new result (refused_as argument.now (unbound zones.old (record { place = place; zone = zone }) entry.now)) }
    ensures err { OnErr result (zones.new ≡ zones.old) }
{
    match unbind(zones, place, entry) {
        Ok(()) => Ok(()),
        Err(EditError::Refused(code)) => Err(Stop::Refused(refuse(alloc, code, argument)?)),
        Err(EditError::Memory) => Err(Stop::Memory),
    }
}

/// Binds an entry to the zone at a place, whichever had it.
pub fn move_at(zones: &mut Seq<Zone>, place: usize, entry: Entry) -> Result<(), Memory>
    requires { place < length zones.old }
    ensures moved { (zone : Zone) → slice_get zones.old place ≡ Some zone
        → OnOk result (zones.new ≡ moved zones.old (record { place = place; zone = zone }) entry) }
    ensures err { OnErr result (zones.new ≡ zones.old) }
{
    match move_to(zones, place, entry) {
        Ok(()) => Ok(()),
        Err(_) => Err(Memory),
    }
}

/// Inverts the ICMP blocks of the zone at a place, or no more.
pub fn invert_at(zones: &mut Seq<Zone>, place: usize, inversion: bool)
    requires { place < length zones.old }
    ensures { (zone : Zone) → slice_get zones.old place ≡ Some zone
        → zones.new ≡ slice_set zones.old place (record zone { inversion = inversion }) }
{
    zones.get_mut(place).inversion = inversion;
}
