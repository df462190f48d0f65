//! The built-in configuration.
ghost use Rattle.std.specs.Prelude.{◌≡◌, IfOk};
ghost use Rattle.fw_service.specs.Configs.{built_in_config};

use super::{built_in_services, built_in_zones};
use fw_base::{Memory, Seq, Text};
use fw_model::{Config, LogDenied};
use std::alloc::Global;

/// The configuration that there is from the start: the built-in zones with `public` as the default zone, and the
/// built-in services. Denied packets aren't logged.
///
/// Refuses for want of memory alone.
pub fn built_in_config(alloc: Global) -> Result<Config, Memory>
    ensures { IfOk result (λ config. config ≡ built_in_config) }
{
    Ok(Config {
        default_zone: Text::of(alloc, "public")?,
        log_denied: LogDenied::Off,
        zones: built_in_zones(alloc)?,
        policies: Seq::new(alloc),
        services: built_in_services(alloc)?,
        ipsets: Seq::new(alloc),
    })
}
