//! One entry of a set.
ghost use Rattle.std.specs.Prelude.{◌≡◌, ◌≢◌, ◌↔◌, ◌∷◌, [], ◌++◌, false, IsTrue, OnErr, OnOk, Err};
ghost use Rattle.fw_zone.specs.Lists.{IsIn, IsRemoved};
ghost use Rattle.fw_ipset.specs.Entries.{IsWithoutItem, with_items};

use super::SetError;
use fw_model::{IpSet, Item};
use fw_zone::AddError;

/// Whether a set holds an item.
pub fn has_item(set: &IpSet, item: &Item) -> bool
    ensures { IsTrue result ↔ IsIn item.now set.now.items }
{
    fw_zone::contains(set.items.as_slice(), item)
}

/// Adds an item to a set, behind all others, which stay where they are.
///
/// Refuses every item for a set with a timeout, else one that the set holds already, and for want of memory; all is then
/// as before.
pub fn add_item(set: &mut IpSet, item: Item) -> Result<(), SetError>
    ensures added { OnOk result (set.new ≡ with_items set.old (set.old.items ++ item ∷ [])) }
    ensures timeout { (result ≡ Err SetError.IpsetWithTimeout) ↔ IsTrue set.old.timeout }
    ensures already { (result ≡ Err SetError.AlreadyEnabled) ↔ ((set.old.timeout ≡ false) × IsIn item set.old.items) }
    ensures no_more { (result ≢ Err SetError.NotEnabled) × (result ≢ Err SetError.InvalidEntry) }
    ensures err { OnErr result (set.new ≡ set.old) }
{
    if set.timeout {
        return Err(SetError::IpsetWithTimeout);
    }
    match fw_zone::add_item(&mut set.items, item) {
        Ok(()) => Ok(()),
        Err(AddError::AlreadyEnabled) => Err(SetError::AlreadyEnabled),
        Err(AddError::Memory) => Err(SetError::Memory),
    }
}

/// Takes an item out of a set; those behind it move up. It takes no memory.
///
/// Refuses every item for a set with a timeout, and else one that the set doesn't hold; all is then as before.
pub fn remove_item(set: &mut IpSet, item: &Item) -> Result<(), SetError>
    ensures removed { OnOk result (IsWithoutItem item.now set.old set.new) }
    ensures timeout { (result ≡ Err SetError.IpsetWithTimeout) ↔ IsTrue set.old.timeout }
    ensures absent { (result ≡ Err SetError.NotEnabled) ↔ ((set.old.timeout ≡ false) × (¬ (IsIn item.now set.old.items))) }
    ensures no_more { (result ≢ Err SetError.AlreadyEnabled) × (result ≢ Err SetError.InvalidEntry) × (result ≢ Err SetError.Memory) }
    ensures err { OnErr result (set.new ≡ set.old) }
{
    if set.timeout {
        return Err(SetError::IpsetWithTimeout);
    }
    match fw_zone::remove_item(&mut set.items, item) {
        Ok(()) => Ok(()),
        Err(_) => Err(SetError::NotEnabled),
    }
}
