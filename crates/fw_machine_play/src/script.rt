//! Whole scripts.
use super::play::Play;
use fw_base::Memory;
use std::alloc::Global;

/// What the lines of a script print, played one after another from the built-in configuration on (`Play::line`).
///
/// Refuses for want of memory alone.
pub fn play_script(alloc: Global, script: &str) -> Result<String, Memory> {
    let mut out = String::new(alloc);
    let mut play = Play::new(alloc)?;
    match play_lines(alloc, &mut play, &mut out, script) {
        Ok(()) => Ok(out),
        Err(error) => Err(error),
    }
}

fn play_lines(
    alloc: Global,
    play: &mut Play,
    out: &mut String,
    script: &str,
) -> Result<(), Memory> {
    for line in script.lines() {
        play.line(alloc, out, line)?;
    }
    Ok(())
}
