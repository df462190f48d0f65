//! Reads lines of a script and prints of each what it says, or `-` where it is outside the grammar. Texts stand in brackets. The file
//! stdout beside src/ was worked out by hand from the rules of docs/PROFILE.md and firewalld.dbus(5). The program's own reader takes a CR
//! before the end of a line for a part of that end, so a line that ends in two has one.
#![tactic(auto)]

mod calls;
mod dicts;
mod packets;
mod settings;
mod told;

use anyhow::Result;
use told::told;

fn main(rt: HostRuntime) -> Result<()> {
    let alloc = rt.alloc();
    for line in rt.lines(alloc) {
        println!(rt; "{}", told(alloc, line?.as_str())?)?;
    }
    Ok(())
}
