//! What is valid stays valid. The functions here are laws: their clauses are all of them.
ghost use Rattle.std.specs.Prelude.{ℕ, ◌≤◌, Bool, List};
ghost use Rattle.fw_model.specs.declared.config.Config.{Config};
ghost use Rattle.fw_model.specs.declared.setting.Timed.{Timed};
ghost use Rattle.fw_settings.specs.Valid.{AreValid, last_time};
ghost use Rattle.fw_settings.specs.declared.settings.Settings.{Settings};
ghost use Rattle.fw_time_links.specs.Linking.{linked};
ghost use Rattle.fw_time_links.specs.Ticking.{ticked};
ghost use Rattle.fw_valid.specs.Valid.{IsValid};
ghost use Rattle.fw_valid_edits.specs.Fit.{with_zones};
ghost use Rattle.fw_zone_edits.specs.Endings.{all_ended};

/// Settings of zones that end by themselves, whichever they are.
pub fn ended_settings_keep_valid()
    ensures { (config : Config) (timers : List Timed) → IsValid config → IsValid (with_zones config (all_ended config.zones timers)) }
{}

/// The time is told. A time that is too late to be told would stay.
pub fn tick_keeps_valid()
    ensures { (settings : Settings) (told : ℕ) → AreValid settings → told ≤ last_time → AreValid (ticked settings told).after }
{}

/// A link comes up or goes.
pub fn link_keeps_valid()
    ensures { (settings : Settings) (up : Bool) (name : List ℕ) → AreValid settings → AreValid (linked settings up name).after }
{}
