//! Reads tests of rules line by line, and prints of each whether it holds of two packets, and whether it does with `not`. What it is
//! to print was worked out by hand from nft(8) and stands in the file stdout beside src/. Lines that begin with `#` say what follows.
#![tactic(auto)]

mod packets;
mod tests;

use anyhow::Result;
use fw_model::Packet;
use nf_eval::{Rewrite, match_holds};
use nf_rules::{Match, NfSet};
use packets::{echo, new_connection, sets};
use std::alloc::Global;
use tests::test_of;

fn main(rt: HostRuntime) -> Result<()> {
    let alloc = rt.alloc();
    let (connection, echo) = (new_connection(alloc)?, echo(alloc)?);
    let sets = sets(alloc)?;
    for line in rt.lines(alloc) {
        let line = line?;
        if line.starts_with('#') {
            continue;
        }
        let of_connection = held(alloc, sets.as_slice(), &connection, line.as_str());
        let of_echo = held(alloc, sets.as_slice(), &echo, line.as_str());
        println!(rt;
            "{}: connection {of_connection}, echo {of_echo}",
            line.as_str()
        )?;
    }
    Ok(())
}

/// Whether the test of some words holds, and whether it does with `not`.
fn held(alloc: Global, sets: &[NfSet], packet: &Packet, words: &str) -> &'static str {
    let Some(test) = test_of(alloc, words) else {
        return "is no test";
    };
    let mut asked = Match { not: false, test };
    let parts = Rewrite::of(packet);
    let plain = match_holds(sets, packet, &parts, &asked);
    asked.not = true;
    match (plain, match_holds(sets, packet, &parts, &asked)) {
        (true, false) => "holds",
        (false, true) => "fails",
        (true, true) => "holds with and without not",
        (false, false) => "fails with and without not",
    }
}
