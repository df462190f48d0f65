//! Policies in valid configurations. The function here is a law: its clause is all of it.
ghost use Rattle.std.specs.Prelude.{◌≡◌, ◌↔◌, None};
ghost use Rattle.fw_model.specs.declared.config.Config.{Config};
ghost use Rattle.fw_model.specs.declared.policy.Policy.{Policy};
ghost use Rattle.fw_policy.specs.Faults.{first_fault};
ghost use Rattle.fw_valid.specs.Policies.{IsPolicy};

/// The policies that have no fault are those that a valid configuration may have.
pub fn a_policy_without_faults_is_valid()
    ensures { (config : Config) (policy : Policy) → (first_fault policy config.zones ≡ None) ↔ IsPolicy config policy }
{}
