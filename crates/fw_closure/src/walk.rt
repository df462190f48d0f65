//! One step of the walk over includes.
ghost use Rattle.std.specs.Prelude.{◌≡◌, OnOk, length};
ghost use Rattle.fw_closure.specs.Marks.{HasMarked};

use fw_base::{Memory, Text};
use fw_model::Service;
use fw_zone::contains;

/// Marks the services of some names as reached. Those that weren't yet are to wait for their own includes.
pub fn mark(
    services: &[Service],
    names: &[Text],
    reached: &mut Vec<bool>,
    waiting: &mut Vec<usize>,
) -> Result<(), Memory>
    requires { length reached.old.items ≡ length services.now }
    ensures length { length reached.new.items ≡ length services.now }
    ensures marked { OnOk result (HasMarked services.now names.now (length services.now)
        reached.old.items reached.new.items waiting.old.items waiting.new.items) }
{
    for place in 0..services.len() {
        if !reached[place] && contains(names, &services[place].name) {
            waiting.push(place)?;
            reached[place] = true;
        }
    }
    Ok(())
}
