//! What is valid stays valid. The functions here are laws: their clauses are all of them.
ghost use Rattle.std.specs.Prelude.{◌≡◌, ℕ, ◌≤◌, List, Ok};
ghost use Rattle.fw_act.specs.Acts.{Answered};
ghost use Rattle.fw_root_members.specs.Changing.{disable_panic_member, enable_panic_member, reload_member, set_default_zone_member, set_log_denied_member};
ghost use Rattle.fw_root_members.specs.Numbering.{to_permanent_member};
ghost use Rattle.fw_settings.specs.Valid.{AreValid, last_number};
ghost use Rattle.fw_settings.specs.declared.settings.Settings.{Settings};

/// Another default zone (firewalld.dbus(5), `setDefaultZone`).
pub fn set_default_zone_keeps_valid()
    ensures { (settings : Settings) (zone : List ℕ) (answered : Answered Settings) → AreValid settings
        → set_default_zone_member settings zone ≡ Ok answered → AreValid answered.after }
{}

/// Denied packets are logged otherwise, and the permanent settings come into force (firewalld.dbus(5), `setLogDenied`).
pub fn set_log_denied_keeps_valid()
    ensures { (settings : Settings) (value : List ℕ) (answered : Answered Settings) → AreValid settings
        → set_log_denied_member settings value ≡ Ok answered → AreValid answered.after }
{}

/// Panic mode begins (firewalld.dbus(5), `enablePanicMode`).
pub fn enable_panic_keeps_valid()
    ensures { (settings : Settings) (answered : Answered Settings) → AreValid settings
        → enable_panic_member settings ≡ Ok answered → AreValid answered.after }
{}

/// Panic mode ends (firewalld.dbus(5), `disablePanicMode`).
pub fn disable_panic_keeps_valid()
    ensures { (settings : Settings) (answered : Answered Settings) → AreValid settings
        → disable_panic_member settings ≡ Ok answered → AreValid answered.after }
{}

/// The permanent settings come into force (firewalld.dbus(5), `reload` and `completeReload`).
pub fn reload_keeps_valid()
    ensures { (settings : Settings) → AreValid settings → AreValid (reload_member settings).after }
{}

/// The settings in force become the permanent ones, while numbers are those of 64 bits (firewalld.dbus(5), `runtimeToPermanent`).
pub fn to_permanent_keeps_valid()
    ensures { (settings : Settings) → AreValid settings → settings.next_zone ≤ last_number → settings.next_policy ≤ last_number
        → AreValid (to_permanent_member settings).after }
{}

/// Numbers are those of 64 bits then, too.
pub fn to_permanent_keeps_numbers()
    ensures { (settings : Settings) → AreValid settings → settings.next_zone ≤ last_number → settings.next_policy ≤ last_number
        → ((to_permanent_member settings).after.next_zone ≤ last_number) × ((to_permanent_member settings).after.next_policy ≤ last_number) }
{}
