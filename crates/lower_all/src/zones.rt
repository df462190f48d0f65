//! The zones that packets come from or go to.
ghost use Rattle.std.specs.Prelude.{◌≡◌, IfOk};
ghost use Rattle.fw_order.specs.Borrowed.{lent};
ghost use Rattle.lower_all.specs.Joined.{used_zones};

use fw_base::Memory;
use fw_model::{Config, Zone};
use lower_dispatch::is_in_use;
use std::alloc::Global;

/// The zones that packets may belong to, as they are listed.
pub fn used_zones(alloc: Global, config: &Config) -> Result<Vec<&Zone>, Memory>
    ensures { IfOk result (λ used. lent used.items ≡ used_zones config.now) }
{
    let mut used = Vec::new(alloc);
    for zone in config.zones.as_slice() {
        if is_in_use(config, zone) {
            used.push(zone)?;
        }
    }
    Ok(used)
}
