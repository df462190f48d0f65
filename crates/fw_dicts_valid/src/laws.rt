//! What dicts make fits. The functions here are laws: their clauses are all of them.
ghost use Rattle.std.specs.Prelude.{◌≡◌, ℕ, List, Ok};
ghost use Rattle.fw_calls.specs.declared.dict.Dict.{Dict};
ghost use Rattle.fw_dicts.specs.Policies.{policy_told};
ghost use Rattle.fw_dicts.specs.Zones.{new_zone, no_rules, zone_told};
ghost use Rattle.fw_model.specs.declared.config.Config.{Config};
ghost use Rattle.fw_model.specs.declared.policy.Policy.{Policy};
ghost use Rattle.fw_model.specs.declared.zone.Zone.{Zone};
ghost use Rattle.fw_valid.specs.Each.{IsWithoutRepeats};
ghost use Rattle.fw_valid_edits.specs.Fit.{AreFit, IsFitPolicy, IsFitZone};

/// The zone that a dict makes of a zone that fits beside others fits, too, and has its name.
pub fn dicts_make_fit_zones()
    ensures { (config : Config) (others : List Zone) (zone told : Zone) (dict : Dict) → IsFitZone config others zone
        → zone_told config others zone dict ≡ Ok told → IsFitZone config others told × (told.name ≡ zone.name) }
{}

/// The policy that a dict makes of a policy whose settings fit fits, and has its name, whatever zones that policy named.
pub fn dicts_make_fit_policies()
    ensures { (config : Config) (policy told : Policy) (dict : Dict) → AreFit config policy.rules
        → IsWithoutRepeats policy.ingress → IsWithoutRepeats policy.egress
        → policy_told config policy dict ≡ Ok told → IsFitPolicy config told × (told.name ≡ policy.name) }
{}

/// A zone without any setting fits beside any others, and so do no settings of a policy.
pub fn new_zones_fit()
    ensures zones { (config : Config) (others : List Zone) (name : List ℕ) → IsFitZone config others (new_zone name) }
    ensures rules { (config : Config) → AreFit config no_rules }
{}
