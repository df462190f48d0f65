//! Items that are kept once.
ghost use Rattle.std.specs.Prelude.{◌≡◌, IfOk};
ghost use Rattle.fw_ipset.specs.Keys.{key};
ghost use Rattle.fw_ipset.specs.Once.{IsKeptOnce};

use fw_addr::Addr;
use fw_base::{Memory, Seq};
use fw_model::Item;
use std::alloc::Global;
use std::collections::HashSet;

/// What an item is made of, as numbers that can be looked up: two items are the same exactly where their keys are.
#[derive(Clone, Copy, Debug, PartialEq, Eq, Hash)]
pub enum Key {
    /// An IPv4 address and the length of its prefix.
    V4(u32, u8),
    /// An IPv6 address and the length of its prefix.
    V6(u128, u8),
    /// A hardware address.
    Mac(u64),
}

pub fn key_of(item: &Item) -> Key
    ensures { result ≡ key item.now }
{
    match item {
        Item::Net(net) => match net.addr() {
            Addr::V4(number) => Key::V4(number, net.prefix()),
            Addr::V6(number) => Key::V6(number, net.prefix()),
        },
        Item::Mac(address) => Key::Mac(address.0),
    }
}

/// The items of a list, each once, at its first place.
pub fn keep_once(alloc: Global, items: Vec<Item>) -> Result<Seq<Item>, Memory>
    ensures { IfOk result (λ kept. IsKeptOnce items.items kept) }
{
    let mut seen = HashSet::new(alloc);
    let mut kept = Seq::new(alloc);
    for item in items {
        if seen.insert(key_of(&item))? {
            kept.push(item)?;
        }
    }
    Ok(kept)
}
