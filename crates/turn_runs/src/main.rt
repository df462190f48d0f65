//! Runs of the turn: two passes that take it one after the other, and one, two and four threads that each make 1,000 entries. The
//! file stdout beside src/ says what each run is to leave, by the number of its threads and entries.
#![tactic(auto)]

use anyhow::{Result, anyhow};
use std::alloc::Global;
use std::sync::Wait;
use turn_core::{Journaled, Tried};
use turn_rows::{Entry, Journal, run_four, run_one, run_two, start, take};

const COMMITS: u64 = 1000;

fn main(rt: HostRuntime) -> Result<()> {
    let alloc = rt.alloc();
    let words = found(&rt, alloc).ok_or_else(|| anyhow!("the turn was not taken as it should be"))?;
    println!(rt;
        "two passes: held, busy {}, held, busy {}",
        words.0, words.1
    )?;
    let runs = [
        ("one", run_one(&rt, alloc, COMMITS)),
        ("two", run_two(&rt, alloc, COMMITS)),
        ("four", run_four(&rt, alloc, COMMITS)),
    ];
    for (threads, made) in runs {
        let journal = made.ok_or_else(|| anyhow!("not all entries were made"))?;
        println!(rt;
            "{threads}: {} sessions, {} entries, {}",
            openings(&journal),
            journal.entries.len(),
            order(alloc, &journal.entries)?
        )?;
    }
    Ok(())
}

/// The words that two passes find where the other holds the turn.
fn found<R: Wait>(rt: &R, alloc: Global) -> Option<(u64, u64)> {
    let (turn, mut first) = start(alloc, 28)?;
    let Ok(mut second) = turn.split(&mut first) else {
        return None;
    };
    let Tried::Held(mut journal) = turn.try_take(&mut first) else {
        return None;
    };
    let Tried::Busy(held) = turn.try_take(&mut second) else {
        return None;
    };
    let session = journal.len();
    if !journal.add(Entry { session, number: 0 }) {
        return None;
    }
    turn.commit(&mut first, journal);
    let Tried::Held(journal) = turn.try_take(&mut second) else {
        return None;
    };
    let Tried::Busy(held_again) = turn.try_take(&mut first) else {
        return None;
    };
    turn.leave(&mut second, journal);
    turn.join(&mut first, second);
    let journal = take(rt, &turn, &mut first);
    turn.close(first);
    (journal.entries.len() == 1).then_some((held, held_again))
}

/// How many sessions there are.
fn openings(journal: &Journal) -> usize {
    journal
        .entries
        .iter()
        .filter(|entry| entry.number == 0)
        .count()
}

/// Whether each session begins with its opening and its entries are numbered in their order, in words.
fn order(alloc: Global, entries: &[Entry]) -> Result<&'static str> {
    let mut sessions: Vec<(u64, u64)> = Vec::new(alloc);
    for (place, entry) in entries.iter().enumerate() {
        let known = sessions
            .iter()
            .position(|(session, _)| *session == entry.session);
        match known {
            Some(at) if sessions[at].1 == entry.number => {
                sessions[at].1 = entry.number.saturating_add(1);
            }
            None if entry.session == place as u64 && entry.number == 0 => {
                sessions.push((entry.session, 1))?;
            }
            _ => return Ok("out of order"),
        }
    }
    Ok("in order")
}
