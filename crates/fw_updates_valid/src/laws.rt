//! What is valid stays valid. The functions here are laws: their clauses are all of them.
ghost use Rattle.std.specs.Prelude.{◌≡◌, ℕ, List, Ok};
ghost use Rattle.fw_act.specs.Acts.{Answered};
ghost use Rattle.fw_calls.specs.declared.dict.Dict.{Dict};
ghost use Rattle.fw_policy_members.specs.Asking.{policy_settings_member};
ghost use Rattle.fw_policy_members.specs.Updates.{set_policy_settings_member};
ghost use Rattle.fw_settings.specs.Valid.{AreValid};
ghost use Rattle.fw_settings.specs.declared.settings.Settings.{Settings};
ghost use Rattle.fw_zone_settings.specs.Updates.{set_zone_settings_member};

/// A zone in force is given the settings of a dict (firewalld.dbus(5), `setZoneSettings2`).
pub fn set_zone_settings_keeps_valid()
    ensures { (settings : Settings) (zone : List ℕ) (dict : Dict) (answered : Answered Settings) → AreValid settings
        → set_zone_settings_member settings zone dict ≡ Ok answered → AreValid answered.after }
{}

/// A policy in force is given the settings of a dict (firewalld.dbus(5), `setPolicySettings`).
pub fn set_policy_settings_keeps_valid()
    ensures { (settings : Settings) (policy : List ℕ) (dict : Dict) (answered : Answered Settings) → AreValid settings
        → set_policy_settings_member settings policy dict ≡ Ok answered → AreValid answered.after }
{}

/// The settings of a policy are asked for (firewalld.dbus(5), `getPolicySettings`).
pub fn policy_settings_keeps_valid()
    ensures { (settings : Settings) (policy : List ℕ) (answered : Answered Settings) → AreValid settings
        → policy_settings_member settings policy ≡ Ok answered → AreValid answered.after }
{}
