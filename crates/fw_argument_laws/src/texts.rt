//! Settings, interfaces and sources as arguments of calls spell them. The functions here are laws: their clauses are all of them.
ghost use Rattle.std.specs.Prelude.{◌≡◌, ℕ, List, Ok};
ghost use Rattle.fw_calls.specs.declared.call.BindingWord.{BindingWord};
ghost use Rattle.fw_calls.specs.declared.call.SettingWords.{SettingWords};
ghost use Rattle.fw_model.specs.declared.config.Config.{Config};
ghost use Rattle.fw_model.specs.declared.rich.Rich.{Rich};
ghost use Rattle.fw_model.specs.declared.setting.Setting.{Setting};
ghost use Rattle.fw_zone_edits.specs.declared.entry.Entry.{Entry};
ghost use Rattle.fw_zone_laws.specs.Entries.{IsEntry};
ghost use Rattle.fw_zone_laws.specs.Settings.{IsKnownRule, IsSetting};
ghost use Rattle.fw_zone_members.specs.Reading.{entry_of, setting_of};
ghost use Rattle.fw_zone_members.specs.RichRules.{rule_of};

/// A rich rule that a text spells (firewalld.richlanguage(5)) has parts that go together, and names only services, ICMP types and ipsets that
/// there are.
pub fn rules_are_known()
    ensures { (config : Config) (text : List ℕ) (rule : Rich) → rule_of config text ≡ Ok rule → IsKnownRule config rule }
{}

/// A setting that the arguments of a call spell (firewalld.dbus(5), `addService`, `addPort` and their kin) is valid by itself.
pub fn settings_are_known()
    ensures { (config : Config) (words : SettingWords) (setting : Setting) → setting_of config words ≡ Ok setting → IsSetting config setting }
{}

/// So is an interface or a source (firewalld.dbus(5), `addInterface`, `addSource`).
pub fn entries_are_known()
    ensures { (config : Config) (word : BindingWord) (entry : Entry) → entry_of config.ipsets word ≡ Ok entry → IsEntry config entry }
{}
