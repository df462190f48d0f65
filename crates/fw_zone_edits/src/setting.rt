//! Edits of the settings of a zone.
ghost use Rattle.std.specs.Prelude.{◌≡◌, ◌<◌, Some, length, slice_get, OnErr};
ghost use Rattle.fw_act.specs.Acts.{Edits};
ghost use Rattle.fw_model.specs.declared.zone.Zone.{Zone};
ghost use Rattle.fw_zone_edits.specs.Settings.{added, added_at, has, removed, removed_at, without_setting};
ghost use Rattle.fw_zone_edits.specs.Settled.{settled_add, settled_remove};

use fw_act::EditError;
use fw_base::Seq;
use fw_model::{Code, Rules, Setting, Zone};
use fw_zone::{AddError, NotEnabled, add, has, remove};

/// Whether a setting is there.
pub fn has_setting(rules: &Rules, setting: &Setting) -> bool
    ensures { result ≡ has rules.now setting.now }
{
    has(rules, setting)
}

/// Adds a setting to the zone at a place, the last of its list.
///
/// Refuses one that is there already, and for want of memory; the zones are then as before.
pub fn add_at(zones: &mut Seq<Zone>, place: usize, setting: Setting) -> Result<(), EditError>
    requires { place < length zones.old }
    ensures edits { (zone : Zone) → slice_get zones.old place ≡ Some zone
        → Edits zones.old zones.new result (added_at zones.old (record { place = place; zone = zone }) setting) }
    ensures err { OnErr result (zones.new ≡ zones.old) }
{
    add_to(zones.get_mut(place), setting)
}

/// Removes a setting from the zone at a place. It takes no memory.
///
/// Refuses one that isn't there; the zones are then as before.
pub fn remove_at(zones: &mut Seq<Zone>, place: usize, setting: &Setting) -> Result<(), EditError>
    requires { place < length zones.old }
    ensures edits { (zone : Zone) → slice_get zones.old place ≡ Some zone
        → Edits zones.old zones.new result (removed_at zones.old (record { place = place; zone = zone }) setting.now) }
    ensures err { OnErr result (zones.new ≡ zones.old) }
{
    remove_from(zones.get_mut(place), setting)
}

fn add_to(zone: &mut Zone, setting: Setting) -> Result<(), EditError>
    ensures edits { Edits zone.old zone.new result (added zone.old setting) }
    ensures err { OnErr result (zone.new ≡ zone.old) }
{
    settled_add(add(&mut zone.rules, setting))
}

fn remove_from(zone: &mut Zone, setting: &Setting) -> Result<(), EditError>
    ensures edits { Edits zone.old zone.new result (removed zone.old setting.now) }
    ensures err { OnErr result (zone.new ≡ zone.old) }
{
    settled_remove(remove(&mut zone.rules, setting))
}

/// Takes a setting away, if it is there. It takes no memory.
pub fn leave_out(rules: &mut Rules, setting: &Setting)
    ensures { rules.new ≡ without_setting rules.old setting.now }
{
    let _ = remove(rules, setting);
}

/// An edit that adds a setting, with the code of its refusal.
fn settled_add(edited: Result<(), AddError>) -> Result<(), EditError>
    ensures { result ≡ settled_add edited }
{
    match edited {
        Ok(()) => Ok(()),
        Err(AddError::AlreadyEnabled) => Err(EditError::Refused(Code::AlreadyEnabled)),
        Err(AddError::Memory) => Err(EditError::Memory),
    }
}

/// An edit that removes a setting, with the code of its refusal.
fn settled_remove(edited: Result<(), NotEnabled>) -> Result<(), EditError>
    ensures { result ≡ settled_remove edited }
{
    match edited {
        Ok(()) => Ok(()),
        Err(_) => Err(EditError::Refused(Code::NotEnabled)),
    }
}
