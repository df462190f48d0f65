//! Services by their names.
ghost use Rattle.std.specs.Prelude.{◌≡◌};
ghost use Rattle.fw_service.specs.Known.{is_known};

use fw_model::Service;

/// Whether a list has a service of a name.
pub fn knows(services: &[Service], name: &str) -> bool
    ensures { result ≡ is_known services.now name.now }
{
    services.iter().any(|service| service.name.as_str() == name)
}
