//! Runs lines of a script on the machine of scripts (`fw_firewall`) and on the settings machine (`fw_machine_play`), and prints what a
//! client is told of each line: once where both tell the same, and else what each of them tells, by its name. `start` begins with the
//! built-in settings again. The file stdout beside src/ was worked out by hand from the rules in docs/PROFILE.md.
#![tactic(auto)]

use anyhow::{Result, anyhow};
use fw_base::Memory;
use fw_firewall::Firewall;
use fw_machine_play::{Play, PlayError};
use fw_run::Machine;
use fw_words::LineError;
use std::alloc::Global;
use std::io;
use std::io::Input;

const BAD_LINE: &str = "bad line\n";

fn main(rt: HostRuntime) -> Result<()> {
    let script = io::read_to_string(rt.alloc(), rt.reader())?;
    let told = both(rt.alloc(), script.as_str()).map_err(|_| anyhow!("no memory"))?;
    print!(rt; "{}", told.as_str())?;
    Ok(())
}

/// What both machines tell of the lines of a script.
fn both(alloc: Global, script: &str) -> Result<String, Memory> {
    let mut out = String::new(alloc);
    let mut firewall = Firewall::new(alloc)?;
    let mut play = Play::new(alloc)?;
    match lines(alloc, &mut firewall, &mut play, &mut out, script) {
        Ok(()) => Ok(out),
        Err(error) => Err(error),
    }
}

fn lines(
    alloc: Global,
    firewall: &mut Firewall,
    play: &mut Play,
    out: &mut String,
    script: &str,
) -> Result<(), Memory> {
    for line in script.lines() {
        match line {
            "start" => restart(alloc, firewall, play)?,
            line if line.is_empty() || line.starts_with('#') => write!(out, "{line}\n")?,
            line => {
                let by_script = by_script(alloc, firewall, line)?;
                let by_step = by_step(alloc, play, line)?;
                push_both(out, by_script.as_str(), by_step.as_str())?;
            }
        }
    }
    Ok(())
}

fn restart(alloc: Global, firewall: &mut Firewall, play: &mut Play) -> Result<(), Memory> {
    *firewall = Firewall::new(alloc)?;
    *play = Play::new(alloc)?;
    Ok(())
}

/// What the machine of scripts tells of a line.
fn by_script(alloc: Global, firewall: &mut Firewall, line: &str) -> Result<String, Memory> {
    let mut out = String::new(alloc);
    match firewall.run_line(alloc, line.as_bytes(), &mut out) {
        Ok(()) => {}
        Err(LineError::BadLine) => out.push_str(BAD_LINE)?,
        Err(LineError::Memory) => return Err(Memory),
    }
    Ok(out)
}

/// What the settings machine tells of a line.
fn by_step(alloc: Global, play: &mut Play, line: &str) -> Result<String, Memory> {
    let mut out = String::new(alloc);
    match play.told(alloc, &mut out, line) {
        Ok(_) => {}
        Err(PlayError::BadLine) => out.push_str(BAD_LINE)?,
        Err(PlayError::Memory) => return Err(Memory),
    }
    Ok(out)
}

fn push_both(out: &mut String, by_script: &str, by_step: &str) -> Result<(), Memory> {
    if by_script == by_step {
        out.push_str(by_script)?;
        return Ok(());
    }
    push_each(out, "scripts", by_script)?;
    push_each(out, "step", by_step)
}

fn push_each(out: &mut String, name: &str, told: &str) -> Result<(), Memory> {
    for line in told.lines() {
        write!(out, "{name}: {line}\n")?;
    }
    Ok(())
}
