//! Reads rulesets and packets line by line, and prints whether a ruleset is sound, and what becomes of each packet. What it is to
//! print was worked out by hand from nft(8) and stands in the file stdout beside src/.
//!
//! `clear` begins a ruleset; `chain NAME`, `chain NAME HOOK PRIORITY` and `nat NAME HOOK PRIORITY` begin a chain, whose rules
//! follow as `rule WORD WORD ..`; `set NAME`, `nets NAME NET=CHAIN ..` and `ifaces NAME LINK=CHAIN ..` add a set and maps. `sound` asks
//! for the ruleset, and `packet FROM TO PROTOCOL KIND` for a packet, `host` or a link in the first place, `local`, a link or `NET>LINK` in
//! the second, and in the last `established`, `related`, `v6` or nothing.
#![tactic(auto)]

mod packet;
mod rows;
mod rule;

use anyhow::Result;
use rows::{answer, read_line, start};

fn main(rt: HostRuntime) -> Result<()> {
    let alloc = rt.alloc();
    let mut rows = start(alloc);
    for line in rt.lines(alloc) {
        let line = line?;
        rows = read_line(alloc, rows, line.as_str())?;
        let text = answer(alloc, &rows, line.as_str())?;
        if !text.is_empty() {
            println!(rt; "{text}")?;
        }
    }
    Ok(())
}
