//! Reads texts of addresses, nets, ports, protocols, hardware addresses, interfaces and names line by line, each behind a word that
//! says what it is, and prints what it is read as. The file stdout beside src/ was worked out by hand from RFC 4291, RFC 5952, nft(8)
//! and the manual pages of firewalld. Lines that begin with `#` say what follows.
#![tactic(auto)]

mod texts;
mod values;

use anyhow::Result;
use texts::answer;
use values::{are_copies_equal, names_text, numbers_text};

fn main(rt: HostRuntime) -> Result<()> {
    let alloc = rt.alloc();
    for line in rt.lines(alloc) {
        let line = line?;
        match line.as_str() {
            "values" => {
                println!(rt; "{}", numbers_text(alloc)?)?;
                println!(rt; "{}", names_text(alloc)?)?;
            }
            "copies" if are_copies_equal(alloc)? => println!(rt; "copies are equal")?,
            line if line.starts_with('#') => {}
            line => println!(rt; "{line} -> {}", answer(alloc, line)?)?,
        }
    }
    Ok(())
}
