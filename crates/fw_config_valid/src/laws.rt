//! What is valid stays valid. The functions here are laws: their clauses are all of them.
ghost use Rattle.std.specs.Prelude.{◌≡◌, ℕ, ◌≤◌, List, Ok};
ghost use Rattle.fw_act.specs.Acts.{Answered};
ghost use Rattle.fw_calls.specs.declared.dict.Dict.{Dict};
ghost use Rattle.fw_config_members.specs.Adding.{add_policy_member, add_zone_member};
ghost use Rattle.fw_object_members.specs.Policies.{remove_policy_member, update_policy_member};
ghost use Rattle.fw_object_members.specs.Zones.{remove_zone_member, update_zone_member};
ghost use Rattle.fw_settings.specs.Valid.{AreValid, last_number};
ghost use Rattle.fw_settings.specs.declared.settings.Settings.{Settings};

/// A zone more, while its number is one of 64 bits.
pub fn add_zone_keeps_valid()
    ensures { (settings : Settings) (name : List ℕ) (dict : Dict) (answered : Answered Settings) → AreValid settings → settings.next_zone ≤ last_number
        → add_zone_member settings name dict ≡ Ok answered → AreValid answered.after }
{}

/// A policy more, while its number is one of 64 bits.
pub fn add_policy_keeps_valid()
    ensures { (settings : Settings) (name : List ℕ) (dict : Dict) (answered : Answered Settings) → AreValid settings → settings.next_policy ≤ last_number
        → add_policy_member settings name dict ≡ Ok answered → AreValid answered.after }
{}

/// Other settings of a zone.
pub fn update_zone_keeps_valid()
    ensures { (settings : Settings) (number : ℕ) (dict : Dict) (answered : Answered Settings) → AreValid settings
        → update_zone_member settings number dict ≡ Ok answered → AreValid answered.after }
{}

/// Other settings of a policy.
pub fn update_policy_keeps_valid()
    ensures { (settings : Settings) (number : ℕ) (dict : Dict) (answered : Answered Settings) → AreValid settings
        → update_policy_member settings number dict ≡ Ok answered → AreValid answered.after }
{}

/// A zone less.
pub fn remove_zone_keeps_valid()
    ensures { (settings : Settings) (number : ℕ) (answered : Answered Settings) → AreValid settings
        → remove_zone_member settings number ≡ Ok answered → AreValid answered.after }
{}

/// A policy less.
pub fn remove_policy_keeps_valid()
    ensures { (settings : Settings) (number : ℕ) (answered : Answered Settings) → AreValid settings
        → remove_policy_member settings number ≡ Ok answered → AreValid answered.after }
{}
