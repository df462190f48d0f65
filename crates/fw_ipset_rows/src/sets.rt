//! Sets for the rows.
use fw_addr::Family;
use fw_base::{Memory, Seq, Text};
use fw_model::{IpSet, Item, SetKind};
use std::alloc::Global;

/// A set without items.
pub fn empty(alloc: Global, kind: SetKind, family: Family) -> Result<IpSet, Memory> {
    Ok(IpSet {
        name: Text::of(alloc, "listed")?,
        kind,
        family,
        timeout: false,
        items: Seq::<Item>::new(alloc),
    })
}
