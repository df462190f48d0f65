//! Prints the rules that lead packets to the zones of a configuration, as a chain for each direction. The file stdout beside src/ was
//! worked out by hand from the manual pages of firewalld and nft(8)'s forms.
#![tactic(auto)]

mod configs;

use anyhow::Result;
use configs::config;
use fw_base::{Memory, Seq, Text};
use fw_model::Config;
use lower_dispatch::{Direction, dispatch, is_in_use};
use nf_rules::{Chain, Ruleset, print};
use std::alloc::Global;

fn main(rt: HostRuntime) -> Result<()> {
    let alloc = rt.alloc();
    let config = config(alloc)?;
    let rules = Ruleset {
        chains: chains(alloc, &config)?,
        sets: Seq::new(alloc),
        maps: Seq::new(alloc),
    };
    print!(rt; "{}", print(alloc, &rules)?.as_str())?;
    for zone in config.zones.as_slice() {
        let used = is_in_use(&config, zone);
        println!(rt; "{} in use: {used}", zone.name.as_str())?;
    }
    Ok(())
}

fn chains(alloc: Global, config: &Config) -> Result<Seq<Chain>, Memory> {
    let mut chains = Seq::new(alloc);
    chains.push(Chain {
        name: Text::of(alloc, "ingress")?,
        base: None,
        rules: dispatch(alloc, config, Direction::Ingress, "IN_")?,
    })?;
    chains.push(Chain {
        name: Text::of(alloc, "egress")?,
        base: None,
        rules: dispatch(alloc, config, Direction::Egress, "OUT_")?,
    })?;
    Ok(chains)
}
