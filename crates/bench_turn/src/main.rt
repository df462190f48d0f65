//! Threads that take one journal in turn and add an entry at each turn. The arguments say how many entries in all, and
//! how many threads: 1, 2 or 4. The folder bench/ has the yardstick that does the same.
#![tactic(auto)]

use anyhow::{Result, anyhow};
use std::env;
use turn_rows::{Journal, run_four, run_one, run_two};

fn openings(journal: &Journal) -> usize {
    journal
        .entries
        .iter()
        .filter(|entry| entry.number == 0)
        .count()
}

fn main(rt: HostRuntime) -> Result<()> {
    let mut words = env::args(&rt)?.skip(1);
    let count = words
        .next()
        .ok_or_else(|| anyhow!("how many entries in all?"))?
        .as_str()
        .parse::<u64>()?;
    let threads = words
        .next()
        .ok_or_else(|| anyhow!("how many threads?"))?
        .as_str()
        .parse::<u64>()?;
    let made = match threads {
        1 => run_one(&rt, rt.alloc(), count),
        2 => run_two(&rt, rt.alloc(), count / 2),
        _ => run_four(&rt, rt.alloc(), count / 4),
    };
    let journal = made.ok_or_else(|| anyhow!("not all entries were made"))?;
    println!(rt;
        "{threads} threads: {} sessions, {} entries",
        openings(&journal),
        journal.entries.len()
    )?;
    Ok(())
}
