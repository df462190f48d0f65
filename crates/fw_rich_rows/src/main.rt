//! Reads each line of standard input as a rich rule, and prints its canonical text, which has to read back as the rule,
//! or why it is refused and at which byte. The files stdin and stdout beside src/ are one table, worked out by hand from
//! the grammar.
#![tactic(auto)]

use anyhow::Result;
use fw_model::Rich;
use fw_rich::{RichError, print_rich, read_rich};
use std::alloc::Global;

fn main(rt: HostRuntime) -> Result<()> {
    for line in rt.lines(rt.alloc()) {
        let answer = answer_to(rt.alloc(), line?.as_str())?;
        println!(rt; "{answer}")?;
    }
    Ok(())
}

/// What a line says.
fn answer_to(alloc: Global, line: &str) -> Result<String> {
    match read_rich(alloc, line) {
        Ok(rule) => canonical(alloc, &rule),
        Err(refusal) => refused(alloc, refusal),
    }
}

fn refused(alloc: Global, refusal: RichError) -> Result<String> {
    let text = match refusal {
        RichError::Rule(offset) => format!(in alloc; "INVALID_RULE {offset}")?,
        RichError::Part(code, offset) => {
            let name = code.name();
            format!(in alloc; "{name} {offset}")?
        }
        RichError::MissingFamily => format!(in alloc; "MISSING_FAMILY")?,
        RichError::Memory => format!(in alloc; "out of memory")?,
    };
    Ok(text)
}

fn canonical(alloc: Global, rule: &Rich) -> Result<String> {
    let text = print_rich(alloc, rule)?;
    let text = text.as_str();
    if is_read_back(alloc, rule, text) {
        Ok(format!(in alloc; "{text}")?)
    } else {
        Ok(format!(in alloc; "not read back: {text}")?)
    }
}

/// Whether a text reads as a rule.
fn is_read_back(alloc: Global, rule: &Rich, text: &str) -> bool {
    match read_rich(alloc, text) {
        Ok(again) => again == *rule,
        Err(_) => false,
    }
}
