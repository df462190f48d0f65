//! All entries of a set at once.
ghost use Rattle.std.specs.Prelude.{◌≡◌, ◌↔◌, ◌⊎◌, IsTrue, OnErr, OnOk, Err};
ghost use Rattle.fw_ipset.specs.Once.{IsReplaced};

use super::SetError;
use super::once::keep_once;
use fw_model::{IpSet, Item};
use std::alloc::Global;

/// Gives a set other items in place of its own, in their order; an item that is repeated stands at its first place alone.
///
/// Refuses all items for a set with a timeout, and for want of memory; all is then as before.
pub fn replace_items(alloc: Global, set: &mut IpSet, items: Vec<Item>) -> Result<(), SetError>
    ensures replaced { OnOk result (IsReplaced items.items set.old set.new) }
    ensures timeout { (result ≡ Err SetError.IpsetWithTimeout) ↔ IsTrue set.old.timeout }
    ensures no_more { OnErr result ((result ≡ Err SetError.IpsetWithTimeout) ⊎ (result ≡ Err SetError.Memory)) }
    ensures err { OnErr result (set.new ≡ set.old) }
{
    if set.timeout {
        return Err(SetError::IpsetWithTimeout);
    }
    match keep_once(alloc, items) {
        Ok(kept) => {
            set.items = kept;
            Ok(())
        }
        Err(_) => Err(SetError::Memory),
    }
}
