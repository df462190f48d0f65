//! Commands as texts. A path stands in brackets.
use fw_base::{Memory, Text};
use fw_command::Command;
use std::alloc::Global;

pub fn told(alloc: Global, command: &Command) -> Result<String, Memory> {
    let mut out = String::new(alloc);
    match command {
        Command::Run {
            state,
            fail_commit,
            fail_save,
        } => {
            out.push_str("run")?;
            tell_state(&mut out, state)?;
            tell_places(&mut out, "fail-commit", fail_commit.as_slice())?;
            tell_places(&mut out, "fail-save", fail_save.as_slice())?;
        }
        Command::Serve {
            socket,
            workers,
            sessions,
            state,
        } => {
            write!(&mut out, "serve socket=[{socket}] workers={workers}")?;
            write!(&mut out, " sessions={sessions}")?;
            tell_state(&mut out, state)?;
        }
        Command::Gen { seed, lines } => write!(&mut out, "gen seed={seed} lines={lines}")?,
        Command::Help => out.push_str("help")?,
    }
    Ok(out)
}

fn tell_state(out: &mut String, state: &Option<Text>) -> Result<(), Memory> {
    match state {
        Some(path) => write!(out, " state=[{path}]")?,
        None => {}
    }
    Ok(())
}

fn tell_places(out: &mut String, name: &str, places: &[u64]) -> Result<(), Memory> {
    write!(out, " {name}=(")?;
    for place in places {
        write!(out, " {place}")?;
    }
    out.push_str(" )")?;
    Ok(())
}
