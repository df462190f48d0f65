//! Edits of the entries of an ipset, as the definitions of calls have them.
ghost use Rattle.std.specs.Prelude.{◌≡◌, false, OnErr, OnOk};
ghost use Rattle.fw_act.specs.Acts.{Edits};
ghost use Rattle.fw_ipset.specs.Entries.{with_items};
ghost use Rattle.fw_ipset_members.specs.Items.{added, each_once, holds, removed};

use fw_act::EditError;
use fw_base::{Memory, Seq};
use fw_ipset::{SetError, add_item, has_item, remove_item, replace_items};
use fw_model::{Code, IpSet, Item};
use std::alloc::Global;

/// Whether an ipset holds an item.
pub fn holds(set: &IpSet, item: &Item) -> bool
    ensures { result ≡ holds set.now item.now }
{
    has_item(set, item)
}

/// Adds an item to an ipset without a timeout.
pub fn add_to(set: &mut IpSet, item: Item) -> Result<(), EditError>
    requires { set.old.timeout ≡ false }
    ensures edits { Edits set.old set.new result (added set.old item) }
    ensures err { OnErr result (set.new ≡ set.old) }
{
    match add_item(set, item) {
        Ok(()) => Ok(()),
        Err(SetError::AlreadyEnabled) => Err(EditError::Refused(Code::AlreadyEnabled)),
        Err(_) => Err(EditError::Memory),
    }
}

/// Takes an item out of an ipset without a timeout.
pub fn remove_from(set: &mut IpSet, item: &Item) -> Result<(), EditError>
    requires { set.old.timeout ≡ false }
    ensures edits { Edits set.old set.new result (removed set.old item.now) }
    ensures err { OnErr result (set.new ≡ set.old) }
{
    match remove_item(set, item) {
        Ok(()) => Ok(()),
        Err(SetError::NotEnabled) => Err(EditError::Refused(Code::NotEnabled)),
        Err(_) => Err(EditError::Memory),
    }
}

/// Gives an ipset without a timeout other items, each once.
pub fn replace_with(alloc: Global, set: &mut IpSet, items: Seq<Item>) -> Result<(), Memory>
    requires { set.old.timeout ≡ false }
    ensures replaced { OnOk result (set.new ≡ with_items set.old (each_once items)) }
    ensures err { OnErr result (set.new ≡ set.old) }
{
    match replace_items(alloc, set, items.into_vec()) {
        Ok(()) => Ok(()),
        Err(_) => Err(Memory),
    }
}
