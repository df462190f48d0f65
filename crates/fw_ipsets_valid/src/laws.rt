//! What is valid stays valid. The function here is a law: its clause is all of it.
ghost use Rattle.std.specs.Prelude.{◌≡◌, Ok};
ghost use Rattle.fw_act.specs.Acts.{Answered};
ghost use Rattle.fw_calls.specs.declared.call.IpsetCall.{IpsetCall};
ghost use Rattle.fw_ipset_members.specs.Members.{ipset_member};
ghost use Rattle.fw_settings.specs.Valid.{AreValid};
ghost use Rattle.fw_settings.specs.declared.settings.Settings.{Settings};

/// Entries of ipsets come, go, are others, or are asked for (firewalld.dbus(5), `addEntry`, `removeEntry`, `setEntries` and their kin).
pub fn ipset_keeps_valid()
    ensures { (settings : Settings) (call : IpsetCall) (answered : Answered Settings) → AreValid settings
        → ipset_member settings call ≡ Ok answered → AreValid answered.after }
{}
