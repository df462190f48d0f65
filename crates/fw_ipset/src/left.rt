//! Items that a list has and another hasn't.
ghost use Rattle.std.specs.Prelude.{IfOk};
ghost use Rattle.fw_ipset.specs.Lacking.{IsLacking};

use super::once::key_of;
use fw_base::{Memory, Seq};
use fw_model::Item;
use std::alloc::Global;
use std::collections::HashSet;

/// The items of a list that are none of the others, in their order.
pub fn lacking(alloc: Global, items: &[Item], others: &[Item]) -> Result<Seq<Item>, Memory>
    ensures { IfOk result (λ left. IsLacking others.now items.now left) }
{
    let mut seen = HashSet::new(alloc);
    for other in others {
        seen.insert(key_of(other))?;
    }
    let mut left = Seq::new(alloc);
    for item in items {
        if !seen.contains(&key_of(item)) {
            left.push(*item)?;
        }
    }
    Ok(left)
}
