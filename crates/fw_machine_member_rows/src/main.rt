//! Calls of each interface on the settings machine, each well and with each of its refusals in their order: zones, the firewall as a whole,
//! ipsets, policies, the permanent settings, and their zones and policies as objects (`fw_machine_play` has the language). The file stdout
//! beside src/ was worked out by hand from the rules in docs/PROFILE.md.
#![tactic(auto)]

use anyhow::{Result, anyhow};
use fw_machine_play::play_script;
use std::io;
use std::io::Input;

fn main(rt: HostRuntime) -> Result<()> {
    let script = io::read_to_string(rt.alloc(), rt.reader())?;
    let told = play_script(rt.alloc(), script.as_str()).map_err(|_| anyhow!("no memory"))?;
    print!(rt; "{}", told.as_str())?;
    Ok(())
}
