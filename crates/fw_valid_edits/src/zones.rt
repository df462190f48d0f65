//! Edits of the zones of a valid configuration. The functions here are laws: their clauses are all of them.
ghost use Rattle.std.specs.Prelude.{◌≡◌, ◌≢◌, ℕ, List, [], ◌∷◌, ◌++◌, Some, IsTrue, remove, slice_get, slice_set};
ghost use Rattle.fw_addr.specs.WellFormed.{is_name};
ghost use Rattle.fw_model.specs.declared.config.Config.{Config};
ghost use Rattle.fw_model.specs.declared.policy.Policy.{Policy};
ghost use Rattle.fw_model.specs.declared.zone.Zone.{Zone};
ghost use Rattle.fw_valid.specs.Each.{Each};
ghost use Rattle.fw_valid.specs.Names.{any, host, zone_names};
ghost use Rattle.fw_valid.specs.Valid.{IsValid};
ghost use Rattle.fw_valid_edits.specs.Fit.{IsFitZone, with_zones};
ghost use Rattle.fw_zone.specs.Lists.{IsIn};

/// A zone that fits beside the other zones, in place of one of its name.
pub fn changed_zone_keeps_valid()
    ensures { (config : Config) (place : ℕ) (old new : Zone) → IsValid config
        → slice_get config.zones place ≡ Some old → new.name ≡ old.name → IsFitZone config (remove config.zones place) new
        → IsValid (with_zones config (slice_set config.zones place new)) }
{}

/// A zone that fits beside all zones, under a name of its own, behind them.
pub fn added_zone_keeps_valid()
    ensures { (config : Config) (new : Zone) → IsValid config
        → IsTrue (is_name new.name) → new.name ≢ host → new.name ≢ any → ¬ (IsIn new.name (zone_names config))
        → IsFitZone config config.zones new → IsValid (with_zones config (config.zones ++ new ∷ [])) }
{}

/// Without a zone that is neither the default zone nor named by a policy.
pub fn removed_zone_keeps_valid()
    ensures { (config : Config) (place : ℕ) (old : Zone) → IsValid config → slice_get config.zones place ≡ Some old
        → config.default_zone ≢ old.name
        → Each (λ (policy : Policy). (¬ (IsIn old.name policy.ingress)) × (¬ (IsIn old.name policy.egress))) config.policies
        → IsValid (with_zones config (remove config.zones place)) }
{}

/// Each zone of a valid configuration fits beside the others.
pub fn zones_fit()
    ensures { (config : Config) (place : ℕ) (zone : Zone) → IsValid config → slice_get config.zones place ≡ Some zone → IsFitZone config (remove config.zones place) zone }
{}
