//! Texts of the permanent settings, one a line, and the first fault of each. A line `text` has a whole text, a line `base` one from which the
//! lines below it begin. A line `edit` has several edits of that text, with ` ; ` between them: what stands there first, ` => `, and what
//! comes in its place, `-` for nothing. Of a text that is accepted the line says whether the settings are written as that text again
//! (`same`), as the base (`base`), or otherwise (`other`). The files stdin and stdout beside src/ are one table, worked out by hand from the
//! rules in docs/PROFILE.md.
#![tactic(auto)]

use anyhow::{Result, anyhow};
use fw_restore::{ConfigError, config_from_text};
use fw_store::config_to_text;
use std::alloc::Global;

fn main(rt: HostRuntime) -> Result<()> {
    let alloc = rt.alloc();
    let mut base = String::new(alloc);
    for line in rt.lines(alloc) {
        let line = line?;
        if let Some(text) = line.strip_prefix("base ") {
            base = String::from_str(alloc, text)?;
            println!(rt; "{}", told(alloc, text, text)?)?;
        } else if let Some(text) = line.strip_prefix("text ") {
            println!(rt; "{}", told(alloc, base.as_str(), text)?)?;
        } else if let Some(edits) = line.strip_prefix("edit ") {
            let text = edited(alloc, base.as_str(), edits)?;
            println!(rt; "{}", told(alloc, base.as_str(), text.as_str())?)?;
        }
    }
    Ok(())
}

/// A text with each of some edits done.
fn edited(alloc: Global, base: &str, edits: &str) -> Result<String> {
    let mut text = String::from_str(alloc, base)?;
    for edit in edits.split(" ; ") {
        let Some((old, new)) = edit.split_once(" => ") else {
            return Err(anyhow!("no edit"));
        };
        let new = if new == "-" { "" } else { new };
        text = text.replacen(alloc, old, new, 1)?;
    }
    Ok(text)
}

/// What is told of a text.
fn told(alloc: Global, base: &str, text: &str) -> Result<String> {
    match config_from_text(alloc, text.as_bytes()) {
        Ok(config) => {
            let written = config_to_text(alloc, &config)?;
            let word = how(written.as_slice(), base.as_bytes(), text.as_bytes());
            Ok(String::from_str(alloc, word)?)
        }
        Err(ConfigError::Json) => Ok(String::from_str(alloc, "json")?),
        Err(ConfigError::Field(path)) => Ok(format!(in alloc; "field \"{path}\"")?),
        Err(ConfigError::Rule(rule)) => Ok(format!(in alloc; "rule {} {rule:?}", rule.number())?),
        Err(ConfigError::Memory) => Err(anyhow!("out of memory")),
    }
}

/// How what is written compares with the base and with what was read.
fn how(written: &[u8], base: &[u8], text: &[u8]) -> &'static str {
    if written == text {
        "same"
    } else if written == base {
        "base"
    } else {
        "other"
    }
}
