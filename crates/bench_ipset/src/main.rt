//! A set of 10,000 addresses takes more of them, is asked for some, or gets all of them anew, and what it holds then is
//! counted. The first argument says how often, the second which: `add`, `query` or `replace`. The folder bench/ has the
//! yardstick that does the same.
#![tactic(auto)]

use anyhow::{Result, anyhow};
use fw_addr::{Addr, Family, Net};
use fw_base::{Memory, Seq, Text};
use fw_ipset::{SetError, add_item, has_item, replace_items};
use fw_model::{IpSet, Item, SetKind};
use std::alloc::Global;
use std::env;

/// How many items the set has at first.
const HELD: u32 = 10_000;

/// The item of a number; each number has one of its own.
fn item(number: u32) -> Item {
    Item::Net(Net::new(Addr::V4(number.wrapping_mul(2654435761)), 32))
}

/// As many items as the set has at first, the last half of them twice.
fn items(alloc: Global) -> Result<Vec<Item>, Memory> {
    let mut items = Vec::new(alloc);
    for number in 0..HELD {
        items.push(item(number))?;
        if number >= HELD / 2 {
            items.push(item(number))?;
        }
    }
    Ok(items)
}

fn full(alloc: Global) -> Result<IpSet, SetError> {
    let mut set = IpSet {
        name: Text::of(alloc, "listed")?,
        kind: SetKind::Ip,
        family: Family::V4,
        timeout: false,
        items: Seq::new(alloc),
    };
    replace_items(alloc, &mut set, items(alloc)?)?;
    Ok(set)
}

/// Does the work so often, and counts what was done and what the set holds.
fn counted(alloc: Global, count: u32, work: &str) -> Result<u64, SetError> {
    let mut set = full(alloc)?;
    let mut done: u64 = 0;
    for turn in 0..count {
        let was_done = match work {
            "add" => add_item(&mut set, item(HELD.wrapping_add(turn))).is_ok(),
            "query" => has_item(&set, &item(turn % (2 * HELD))),
            _ => replace_items(alloc, &mut set, items(alloc)?).is_ok(),
        };
        if was_done {
            done = done.wrapping_add(1);
        }
    }
    Ok(done.wrapping_add(set.items.as_slice().len() as u64))
}

fn main(rt: HostRuntime) -> Result<()> {
    let mut words = env::args(&rt)?.skip(1);
    let count = words
        .next()
        .ok_or_else(|| anyhow!("how often?"))?
        .as_str()
        .parse::<u32>()?;
    let work = words
        .next()
        .ok_or_else(|| anyhow!("add, query or replace?"))?;
    println!(rt; "{}", counted(rt.alloc(), count, work.as_str())?)?;
    Ok(())
}
