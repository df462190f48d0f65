//! What is valid stays valid. The functions here are laws: their clauses are all of them.
ghost use Rattle.std.specs.Prelude.{◌≡◌, ℕ, List};
ghost use Rattle.fw_model.specs.declared.config.Config.{Config};
ghost use Rattle.fw_model.specs.declared.config.LogDenied.{LogDenied};
ghost use Rattle.fw_model.specs.declared.ipset.IpSet.{IpSet};
ghost use Rattle.fw_model.specs.declared.setting.Timed.{Timed};
ghost use Rattle.fw_parts_valid.specs.Parts.{AreOtherSets, with_parts};
ghost use Rattle.fw_settings.specs.Valid.{AreTimers};
ghost use Rattle.fw_valid.specs.Names.{zone_names};
ghost use Rattle.fw_valid.specs.Valid.{IsValid};
ghost use Rattle.fw_zone.specs.Lists.{IsIn};

/// A valid configuration with another default zone, which is one of its zones, that logs denied packets otherwise, and of which ipsets
/// have other entries.
pub fn other_parts_keep_valid()
    ensures { (config : Config) (default_zone : List ℕ) (denied : LogDenied) (ipsets : List IpSet) → IsValid config
        → IsIn default_zone (zone_names config) → AreOtherSets config ipsets → IsValid (with_parts config default_zone denied ipsets) }
{}

/// Timers of such a configuration.
pub fn other_parts_keep_timers()
    ensures { (config : Config) (default_zone : List ℕ) (denied : LogDenied) (ipsets : List IpSet) (timers : List Timed)
        → AreTimers config timers → AreTimers (with_parts config default_zone denied ipsets) timers }
{}
