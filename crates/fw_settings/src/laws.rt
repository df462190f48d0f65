//! What is valid. The function here is a law: its clause is all of it.
ghost use Rattle.fw_model.specs.declared.config.Config.{Config};
ghost use Rattle.fw_settings.specs.Starting.{started};
ghost use Rattle.fw_settings.specs.Valid.{AreValid};
ghost use Rattle.fw_valid.specs.Valid.{IsValid};

/// The settings with which the daemon starts from a valid configuration are valid.
pub fn first_settings_are_valid()
    ensures { (config : Config) → IsValid config → AreValid (started config) }
{}
