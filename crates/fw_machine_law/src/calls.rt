//! Calls keep the settings valid, by interface. The functions here are laws: their clauses are all of them.
ghost use Rattle.std.specs.Prelude.{◌≡◌, ℕ, Ok};
ghost use Rattle.fw_act.specs.Acts.{Answered};
ghost use Rattle.fw_calls.specs.declared.call.Call.{Call};
ghost use Rattle.fw_calls.specs.declared.call.ConfigCall.{ConfigCall};
ghost use Rattle.fw_calls.specs.declared.call.ObjectCall.{ObjectCall};
ghost use Rattle.fw_calls.specs.declared.call.PolicyCall.{PolicyCall};
ghost use Rattle.fw_calls.specs.declared.call.RootCall.{RootCall};
ghost use Rattle.fw_calls.specs.declared.call.ZoneCall.{ZoneCall};
ghost use Rattle.fw_machine.specs.Configs.{config_called};
ghost use Rattle.fw_machine.specs.Machine.{called};
ghost use Rattle.fw_machine.specs.Objects.{policy_object_called, zone_object_called};
ghost use Rattle.fw_machine.specs.Policies.{policy_called};
ghost use Rattle.fw_machine.specs.Roots.{root_called};
ghost use Rattle.fw_machine.specs.Zones.{zone_called};
ghost use Rattle.fw_machine_law.specs.Ranges.{AreInRange, IsCallInRange, IsZoneInRange};
ghost use Rattle.fw_settings.specs.Valid.{AreValid};
ghost use Rattle.fw_settings.specs.declared.settings.Settings.{Settings};

use fw_config_valid::{
    add_policy_keeps_valid, add_zone_keeps_valid, remove_policy_keeps_valid,
    remove_zone_keeps_valid, update_policy_keeps_valid, update_zone_keeps_valid,
};
use fw_ipsets_valid::ipset_keeps_valid;
use fw_kept_valid::{
    binding_keeps_valid, inversion_keeps_valid, setting_keeps_valid, zone_of_keeps_valid,
    zone_settings_keeps_valid,
};
use fw_roots_valid::{
    disable_panic_keeps_valid, enable_panic_keeps_valid, reload_keeps_valid,
    set_default_zone_keeps_valid, set_log_denied_keeps_valid, to_permanent_keeps_valid,
};
use fw_updates_valid::{
    policy_settings_keeps_valid, set_policy_settings_keeps_valid, set_zone_settings_keeps_valid,
};

/// A call on zones in force.
pub fn zone_called_keeps_valid()
    ensures { (settings : Settings) (call : ZoneCall) (answered : Answered Settings) → AreValid settings → IsZoneInRange call
        → zone_called settings call ≡ Ok answered → AreValid answered.after }
{
    setting_keeps_valid();
    inversion_keeps_valid();
    binding_keeps_valid();
    zone_of_keeps_valid();
    zone_settings_keeps_valid();
    set_zone_settings_keeps_valid();
}

/// A call on policies in force.
pub fn policy_called_keeps_valid()
    ensures { (settings : Settings) (call : PolicyCall) (answered : Answered Settings) → AreValid settings
        → policy_called settings call ≡ Ok answered → AreValid answered.after }
{
    policy_settings_keeps_valid();
    set_policy_settings_keeps_valid();
}

/// A call on the firewall as a whole.
pub fn root_called_keeps_valid()
    ensures { (settings : Settings) (call : RootCall) (answered : Answered Settings) → AreValid settings → AreInRange settings
        → root_called settings call ≡ Ok answered → AreValid answered.after }
{
    set_default_zone_keeps_valid();
    set_log_denied_keeps_valid();
    enable_panic_keeps_valid();
    disable_panic_keeps_valid();
    reload_keeps_valid();
    to_permanent_keeps_valid();
}

/// A call on the permanent settings.
pub fn config_called_keeps_valid()
    ensures { (settings : Settings) (call : ConfigCall) (answered : Answered Settings) → AreValid settings → AreInRange settings
        → config_called settings call ≡ Ok answered → AreValid answered.after }
{
    add_zone_keeps_valid();
    add_policy_keeps_valid();
}

/// A call on a permanent zone.
pub fn zone_object_called_keeps_valid()
    ensures { (settings : Settings) (number : ℕ) (call : ObjectCall) (answered : Answered Settings) → AreValid settings
        → zone_object_called settings number call ≡ Ok answered → AreValid answered.after }
{
    update_zone_keeps_valid();
    remove_zone_keeps_valid();
}

/// A call on a permanent policy.
pub fn policy_object_called_keeps_valid()
    ensures { (settings : Settings) (number : ℕ) (call : ObjectCall) (answered : Answered Settings) → AreValid settings
        → policy_object_called settings number call ≡ Ok answered → AreValid answered.after }
{
    update_policy_keeps_valid();
    remove_policy_keeps_valid();
}

/// Any call that isn't refused.
pub fn called_keeps_valid()
    ensures { (settings : Settings) (call : Call) (answered : Answered Settings) → AreValid settings → AreInRange settings → IsCallInRange call
        → called settings call ≡ Ok answered → AreValid answered.after }
{
    zone_called_keeps_valid();
    policy_called_keeps_valid();
    ipset_keeps_valid();
    root_called_keeps_valid();
    config_called_keeps_valid();
    zone_object_called_keeps_valid();
    policy_object_called_keeps_valid();
}
