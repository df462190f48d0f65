//! Reads lines of words, bare or in quotes, and prints of each line the command that the words ask for, or `usage` where they ask for none.
//! The file stdout beside src/ was worked out by hand from the grammar that `fw_command::pick` tells of.
#![tactic(auto)]

mod told;

use anyhow::Result;
use fw_base::Memory;
use fw_command::{PickError, pick};
use fw_words::{LineError, split_words};
use std::alloc::Global;
use told::told;

fn main(rt: HostRuntime) -> Result<()> {
    let alloc = rt.alloc();
    for line in rt.lines(alloc) {
        println!(rt; "{}", answer(alloc, line?.as_str())?)?;
    }
    Ok(())
}

/// What the words of a line ask for.
fn answer(alloc: Global, line: &str) -> Result<String, Memory> {
    let words = words_of(alloc, line)?;
    match pick(alloc, words.as_slice()) {
        Ok(command) => told(alloc, &command),
        Err(PickError::Usage) => Ok(String::from_str(alloc, "usage")?),
        Err(PickError::Memory) => Err(Memory),
    }
}

/// The words of a line; there are none where it is empty, or isn't words separated by one blank each.
fn words_of(alloc: Global, line: &str) -> Result<Vec<String>, Memory> {
    let mut words = Vec::new(alloc);
    match split_words(alloc, line) {
        Ok(found) => {
            for word in found.as_slice() {
                words.push(String::from_str(alloc, *word)?)?;
            }
        }
        Err(LineError::BadLine) => {}
        Err(LineError::Memory) => return Err(Memory),
    }
    Ok(words)
}
