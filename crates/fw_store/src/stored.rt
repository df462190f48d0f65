//! What is told in JSON.
ghost use Rattle.std.specs.Prelude.{◌≡◌, IfOk, OnOk};
ghost use Rattle.serde_json.specs.Data.{Data, put};
ghost use Rattle.serde_json.specs.View.{members_view, view};

use fw_base::Memory;
use serde_json::{Map, Value};
use std::alloc::Global;

/// A value that JSON tells.
pub trait Stored {
    /// The JSON value that stands for it.
    ghost json: { Self → Data };

    /// The JSON value that stands for it. Refuses for want of memory alone.
    fn to_value(&self, alloc: Global) -> Result<Value, Memory>
        ensures { IfOk result (λ value. view value ≡ json self.now) };
}

/// Puts what stands for an item into an object, under a key.
pub fn put_member<T: Stored>(
    alloc: Global,
    members: &mut Map<String, Value>,
    key: &str,
    item: &T,
) -> Result<(), Memory>
    ensures { OnOk result (members_view members.new.entries ≡ put key.now (T.json item.now) (members_view members.old.entries)) }
{
    let value = item.to_value(alloc)?;
    serde_json::put(members, alloc, key, value)?;
    Ok(())
}
