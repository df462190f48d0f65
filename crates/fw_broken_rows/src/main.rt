//! Configurations, one a line, and the first rule that each breaks. A line has several edits of `fw_rows`, with ` ; ` between them; each
//! begins from the built-in configuration. The files stdin and stdout beside src/ are one table, worked out by hand from the rules in
//! docs/PROFILE.md.
#![tactic(auto)]

use anyhow::Result;
use fw_broken::broken_rule;
use fw_model::Config;
use fw_rows::edit;
use fw_service::built_in_config;
use fw_words::{LineError, split_words};
use std::alloc::Global;

fn main(rt: HostRuntime) -> Result<()> {
    let alloc = rt.alloc();
    for line in rt.lines(alloc) {
        let line = line?;
        if !line.starts_with('#') {
            let mut config = built_in_config(alloc)?;
            edit_all(alloc, &mut config, line.as_str())?;
            match broken_rule(&config) {
                Some(rule) => println!(rt; "{} {rule:?}", rule.number())?,
                None => println!(rt; "valid")?,
            }
        }
    }
    Ok(())
}

/// Does what the parts of a line say.
fn edit_all(alloc: Global, config: &mut Config, line: &str) -> Result<(), LineError> {
    for part in line.split(" ; ") {
        if !part.is_empty() {
            let words = split_words(alloc, part)?;
            edit(alloc, config, words.as_slice())?;
        }
    }
    Ok(())
}
