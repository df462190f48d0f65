//! What is valid stays valid. The functions here are laws: their clauses are all of them.
ghost use Rattle.std.specs.Prelude.{◌≡◌, ℕ, List, Ok};
ghost use Rattle.fw_act.specs.Acts.{Answered};
ghost use Rattle.fw_calls.specs.declared.call.BindingWord.{BindingWord};
ghost use Rattle.fw_calls.specs.declared.call.SettingVerb.{SettingVerb};
ghost use Rattle.fw_calls.specs.declared.call.SettingWords.{SettingWords};
ghost use Rattle.fw_calls.specs.declared.member.BindingVerb.{BindingVerb};
ghost use Rattle.fw_calls.specs.declared.member.Verb.{Verb};
ghost use Rattle.fw_kept_valid.specs.Timeouts.{IsTimed};
ghost use Rattle.fw_settings.specs.Valid.{AreValid};
ghost use Rattle.fw_settings.specs.declared.settings.Settings.{Settings};
ghost use Rattle.fw_zone_members.specs.Asking.{zone_settings_member};
ghost use Rattle.fw_zone_members.specs.Bindings.{binding_member, zone_of_member};
ghost use Rattle.fw_zone_members.specs.Inversion.{inversion_member};
ghost use Rattle.fw_zone_members.specs.Settings.{setting_member};

use fw_calls::SettingVerb;

/// A setting comes to a zone in force, for good or with a timer; it goes, with its timer; or it is asked for (firewalld.dbus(5), `addPort`,
/// `removePort`, `queryPort` and their kin). A timeout is one of 32 bits: a longer one would end later than a timer may.
pub fn setting_keeps_valid()
    ensures { (settings : Settings) (verb : SettingVerb) (zone : List ℕ) (words : SettingWords) (answered : Answered Settings) → AreValid settings → IsTimed verb
        → setting_member settings verb zone words ≡ Ok answered → AreValid answered.after }
{}

/// What a call does with a setting has such a timeout, if any.
pub fn verbs_are_timed(verb: SettingVerb)
    ensures { IsTimed verb }
{
    match verb {
        SettingVerb::Add { timeout } => prove!(timeout >= i32::MIN && timeout <= i32::MAX),
        SettingVerb::Remove => {}
        SettingVerb::Query => {}
    }
}

/// The ICMP blocks of a zone in force are inverted, or are no more (firewalld.dbus(5), `addIcmpBlockInversion` and its kin).
pub fn inversion_keeps_valid()
    ensures { (settings : Settings) (verb : Verb) (zone : List ℕ) (answered : Answered Settings) → AreValid settings
        → inversion_member settings verb zone ≡ Ok answered → AreValid answered.after }
{}

/// An interface or a source comes to a zone in force, goes from it, or comes to it from whichever zone had it (firewalld.dbus(5),
/// `addInterface`, `removeInterface`, `changeZoneOfInterface` and their kin).
pub fn binding_keeps_valid()
    ensures { (settings : Settings) (verb : BindingVerb) (zone : List ℕ) (word : BindingWord) (answered : Answered Settings) → AreValid settings
        → binding_member settings verb zone word ≡ Ok answered → AreValid answered.after }
{}

/// The zone of an interface or a source is asked for (firewalld.dbus(5), `getZoneOfInterface`, `getZoneOfSource`).
pub fn zone_of_keeps_valid()
    ensures { (settings : Settings) (word : BindingWord) (answered : Answered Settings) → AreValid settings
        → zone_of_member settings word ≡ Ok answered → AreValid answered.after }
{}

/// The settings of a zone are asked for (firewalld.dbus(5), `getZoneSettings2`).
pub fn zone_settings_keeps_valid()
    ensures { (settings : Settings) (zone : List ℕ) (answered : Answered Settings) → AreValid settings
        → zone_settings_member settings zone ≡ Ok answered → AreValid answered.after }
{}
