//! Edits of zones that keep a configuration valid. The functions here are laws: their clauses are all of them.
ghost use Rattle.std.specs.Prelude.{◌≡◌, Bool, List, Some, Ok, slice_get, slice_set};
ghost use Rattle.fw_model.specs.declared.config.Config.{Config};
ghost use Rattle.fw_model.specs.declared.setting.Setting.{Setting};
ghost use Rattle.fw_model.specs.declared.zone.Zone.{Zone};
ghost use Rattle.fw_valid.specs.Valid.{IsValid};
ghost use Rattle.fw_valid_edits.specs.Fit.{with_zones};
ghost use Rattle.fw_zone_edits.specs.Entries.{bound, unbound};
ghost use Rattle.fw_zone_edits.specs.Settings.{added_at, removed_at};
ghost use Rattle.fw_zone_edits.specs.Zones.{Found};
ghost use Rattle.fw_zone_edits.specs.declared.entry.Entry.{Entry};
ghost use Rattle.fw_zone_laws.specs.Entries.{IsEntry};
ghost use Rattle.fw_zone_laws.specs.Settings.{IsSetting};

/// A setting that is valid by itself comes to a zone.
pub fn added_setting_keeps_valid()
    ensures { (config : Config) (found : Found) → IsValid config → slice_get config.zones found.place ≡ Some found.zone
        → (one : Setting) (zones : List Zone) → IsSetting config one → added_at config.zones found one ≡ Ok zones → IsValid (with_zones config zones) }
{}

/// A setting goes from a zone.
pub fn removed_setting_keeps_valid()
    ensures { (config : Config) (found : Found) → IsValid config → slice_get config.zones found.place ≡ Some found.zone
        → (one : Setting) (zones : List Zone) → removed_at config.zones found one ≡ Ok zones → IsValid (with_zones config zones) }
{}

/// A zone's ICMP blocks are inverted, or are no more.
pub fn inversion_keeps_valid()
    ensures { (config : Config) (found : Found) → IsValid config → slice_get config.zones found.place ≡ Some found.zone
        → (inversion : Bool) → IsValid (with_zones config (slice_set config.zones found.place (record found.zone { inversion = inversion }))) }
{}

/// An interface, or a source of which the ipset is there, comes to a zone.
pub fn bound_entry_keeps_valid()
    ensures { (config : Config) (found : Found) → IsValid config → slice_get config.zones found.place ≡ Some found.zone
        → (one : Entry) (zones : List Zone) → IsEntry config one → bound config.zones found one ≡ Ok zones → IsValid (with_zones config zones) }
{}

/// An interface or a source goes from a zone.
pub fn unbound_entry_keeps_valid()
    ensures { (config : Config) (found : Found) → IsValid config → slice_get config.zones found.place ≡ Some found.zone
        → (one : Entry) (zones : List Zone) → unbound config.zones found one ≡ Ok zones → IsValid (with_zones config zones) }
{}
