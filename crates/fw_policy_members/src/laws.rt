//! What holds of policies that are given other settings. The function here is a law: its clause is all of it.
ghost use Rattle.std.specs.Prelude.{◌≡◌, ℕ, List, Ok};
ghost use Rattle.fw_calls.specs.declared.dict.Dict.{Dict};
ghost use Rattle.fw_settings.specs.declared.settings.Settings.{Settings};
ghost use Rattle.fw_valid.specs.Policies.{IsPolicy};
ghost use Rattle.fw_policy_members.specs.Updates.{update_of, with_update};
ghost use Rattle.fw_policy_members.specs.declared.update.Update.{Update};

/// A policy that has other settings keeps the rules on policies, beside the zones in force.
pub fn policies_keep_the_rules()
    ensures { (settings : Settings) (policy : List ℕ) (dict : Dict) (update : Update) → update_of settings policy dict ≡ Ok update
        → IsPolicy (with_update settings update).runtime.config update.policy }
{}
