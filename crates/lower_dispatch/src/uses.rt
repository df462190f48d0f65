//! Which zones packets may belong to.
ghost use Rattle.std.specs.Prelude.{◌≡◌};
ghost use Rattle.lower_dispatch.specs.Uses.{is_in_use};

use fw_model::{Config, Zone};

/// Whether a zone is in use: a source or an interface is bound to it, or it is the default zone. Packets belong to no other.
pub fn is_in_use(config: &Config, zone: &Zone) -> bool
    ensures { result ≡ is_in_use config.now zone.now }
{
    zone.name.as_str() == config.default_zone.as_str()
        || !zone.sources.as_slice().is_empty()
        || !zone.interfaces.as_slice().is_empty()
}
