//! What holds of timers. The function here is a law: its clause is all of it.
ghost use Rattle.std.specs.Prelude.{◌≡◌, ℕ, List, Ok};
ghost use Rattle.fw_calls.specs.declared.dict.Dict.{Dict};
ghost use Rattle.fw_settings.specs.Valid.{AreTimers};
ghost use Rattle.fw_settings.specs.declared.settings.Settings.{Settings};
ghost use Rattle.fw_zone_settings.specs.Updates.{update_of, with_update};
ghost use Rattle.fw_zone_settings.specs.declared.update.Update.{Update};

/// Where each timer is of a setting in force, each is that goes on once a zone has other settings.
pub fn timers_are_of_settings_in_force()
    ensures { (settings : Settings) (zone : List ℕ) (dict : Dict) (update : Update) → update_of settings zone dict ≡ Ok update
        → AreTimers settings.runtime.config settings.timers
        → AreTimers (with_update settings update).runtime.config (with_update settings update).timers }
{}
