//! Edits of the policies of a valid configuration. The functions here are laws: their clauses are all of them.
ghost use Rattle.std.specs.Prelude.{◌≡◌, ℕ, List, [], ◌∷◌, ◌++◌, Some, IsTrue, remove, slice_get, slice_set};
ghost use Rattle.fw_addr.specs.WellFormed.{is_name};
ghost use Rattle.fw_model.specs.declared.config.Config.{Config};
ghost use Rattle.fw_model.specs.declared.policy.Policy.{Policy};
ghost use Rattle.fw_valid.specs.Names.{policy_names};
ghost use Rattle.fw_valid.specs.Valid.{IsValid};
ghost use Rattle.fw_valid_edits.specs.Fit.{IsFitPolicy, with_policies};
ghost use Rattle.fw_zone.specs.Lists.{IsIn};

/// A policy that fits, in place of one of its name.
pub fn changed_policy_keeps_valid()
    ensures { (config : Config) (place : ℕ) (old new : Policy) → IsValid config
        → slice_get config.policies place ≡ Some old → new.name ≡ old.name → IsFitPolicy config new
        → IsValid (with_policies config (slice_set config.policies place new)) }
{}

/// A policy that fits, under a name of its own, behind the others.
pub fn added_policy_keeps_valid()
    ensures { (config : Config) (new : Policy) → IsValid config
        → IsTrue (is_name new.name) → ¬ (IsIn new.name (policy_names config)) → IsFitPolicy config new
        → IsValid (with_policies config (config.policies ++ new ∷ [])) }
{}

/// Without a policy.
pub fn removed_policy_keeps_valid()
    ensures { (config : Config) (place : ℕ) → IsValid config → IsValid (with_policies config (remove config.policies place)) }
{}

/// Each policy of a valid configuration fits.
pub fn policies_fit()
    ensures { (config : Config) (place : ℕ) (policy : Policy) → IsValid config → slice_get config.policies place ≡ Some policy → IsFitPolicy config policy }
{}
