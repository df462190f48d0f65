//! What is valid. The function here is a law: its clause is all of it.
ghost use Rattle.fw_service.specs.Configs.{built_in_config};
ghost use Rattle.fw_valid.specs.Valid.{IsValid};

/// The configuration that there is from the start is valid.
pub fn the_built_in_configuration_is_valid()
    ensures { IsValid built_in_config }
{}
