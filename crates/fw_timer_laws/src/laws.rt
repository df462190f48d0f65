//! Edits of a zone, and the timers of settings. The functions here are laws: their clauses are all of them.
ghost use Rattle.std.specs.Prelude.{◌≡◌, ℕ, Bool, false, List, Option, Some, slice_get, slice_set};
ghost use Rattle.fw_model.specs.declared.config.Config.{Config};
ghost use Rattle.fw_model.specs.declared.setting.Setting.{Setting};
ghost use Rattle.fw_model.specs.declared.setting.Timed.{Timed};
ghost use Rattle.fw_model.specs.declared.zone.Zone.{Zone};
ghost use Rattle.fw_settings.specs.Valid.{AreTimers};
ghost use Rattle.fw_timed.specs.Timers.{without_timers};
ghost use Rattle.fw_timer_laws.specs.Timers.{IsTimerOf};
ghost use Rattle.fw_valid.specs.Each.{IsWithoutRepeats};
ghost use Rattle.fw_valid.specs.Names.{zone_names};
ghost use Rattle.fw_valid_edits.specs.Fit.{with_zones};
ghost use Rattle.fw_zone.specs.Settings.{with_setting};
ghost use Rattle.fw_zone_edits.specs.Settings.{has, without_setting};
ghost use Rattle.fw_zone_edits.specs.Zones.{Found};
ghost use Rattle.fw_zone_members.specs.Settings.{with_timer};

/// A setting that a zone doesn't have comes to it, with a timer or without, where no two zones share a name.
pub fn added_setting_keeps_timers()
    ensures { (config : Config) (found : Found) → slice_get config.zones found.place ≡ Some found.zone
        → (timers : List Timed) → AreTimers config timers → (one : Setting) → IsWithoutRepeats (zone_names config) → has found.zone.rules one ≡ false
        → (timed : Option Timed) → ((new : Timed) → timed ≡ Some new → IsTimerOf found one new)
        → AreTimers (with_zones config (slice_set config.zones found.place (record found.zone { rules = with_setting found.zone.rules one }))) (with_timer timers timed) }
{}

/// A setting goes from a zone, and its timers with it.
pub fn removed_setting_keeps_timers()
    ensures { (config : Config) (found : Found) → slice_get config.zones found.place ≡ Some found.zone
        → (timers : List Timed) → AreTimers config timers → (one : Setting)
        → AreTimers (with_zones config (slice_set config.zones found.place (record found.zone { rules = without_setting found.zone.rules one })))
        (without_timers found.zone.name one timers) }
{}

/// Another zone comes in place of one, with its name and its settings.
pub fn kept_settings_keep_timers()
    ensures { (config : Config) (place : ℕ) (old new : Zone) (timers : List Timed) → slice_get config.zones place ≡ Some old
        → new.name ≡ old.name → new.rules ≡ old.rules → AreTimers config timers → AreTimers (with_zones config (slice_set config.zones place new)) timers }
{}
