//! Reads permanent settings with 10,000 entries of an ipset from their text, or writes their text, again and again, and prints how many
//! entries and how many bytes there are. The first argument says how often, the second which: `read` or `write`, or beside them their
//! yardsticks: `parse` and `print` read the same text into a JSON value and write it, and say nothing of settings.
#![tactic(auto)]

use anyhow::{Result, anyhow};
use fw_addr::{Addr, Family, Net};
use fw_base::{Memory, Seq, Text};
use fw_model::{Config, IpSet, Item, SetKind};
use fw_restore::config_from_text;
use fw_service::built_in_config;
use fw_store::config_to_text;
use serde_json::Value;
use std::alloc::Global;
use std::{env, str};

/// How many entries the ipset has.
const ENTRIES: u32 = 10_000;

/// The net of a number: 10.0.0.0/24, 10.0.1.0/24 and so on.
fn net(number: u32) -> Item {
    Item::Net(Net::new(Addr::V4((10 << 24) | (number % 65_536 << 8)), 24))
}

fn entries(alloc: Global) -> Result<Seq<Item>, Memory> {
    let mut entries = Seq::new(alloc);
    for number in 0..ENTRIES {
        entries.push(net(number))?;
    }
    Ok(entries)
}

fn ipset(alloc: Global) -> Result<IpSet, Memory> {
    let name = Text::of(alloc, "listed")?;
    let items = entries(alloc)?;
    Ok(IpSet {
        name,
        kind: SetKind::Net,
        family: Family::V4,
        timeout: false,
        items,
    })
}

/// The built-in configuration with the ipset.
fn settings(alloc: Global) -> Result<Config, Memory> {
    let mut config = built_in_config(alloc)?;
    match push_ipset(alloc, &mut config) {
        Ok(()) => Ok(config),
        Err(error) => Err(error),
    }
}

fn push_ipset(alloc: Global, config: &mut Config) -> Result<(), Memory> {
    config.ipsets.push(ipset(alloc)?)
}

/// How many entries the ipset of settings has.
fn held(config: &Config) -> usize {
    match config.ipsets.as_slice().first() {
        Some(ipset) => ipset.items.as_slice().len(),
        None => 0,
    }
}

/// The same of a JSON value.
fn listed(value: &Value) -> usize {
    match value.pointer("/ipsets/0/entries") {
        Some(Value::Array(entries)) => entries.len(),
        _ => 0,
    }
}

/// What is read or written: how many entries, and how many bytes.
type Counts = (usize, usize);

fn read(alloc: Global, text: &[u8]) -> Result<Counts> {
    match config_from_text(alloc, text) {
        Ok(config) => Ok((held(&config), text.len())),
        Err(_) => Err(anyhow!("the text isn't read")),
    }
}

fn write(alloc: Global, config: &Config) -> Result<Counts> {
    let text = config_to_text(alloc, config)?;
    Ok((held(config), text.len()))
}

fn parse(alloc: Global, text: &str) -> Result<Counts> {
    let value = Value::from_str(alloc, text)?;
    Ok((listed(&value), text.len()))
}

fn print(alloc: Global, value: &Value) -> Result<Counts> {
    let text = value.to_string(alloc)?;
    Ok((listed(value), text.as_bytes().len()))
}

/// Does the work so often, and tells what the last turn counted.
fn counted(alloc: Global, count: u64, work: &str) -> Result<Counts> {
    let config = settings(alloc)?;
    let text = config_to_text(alloc, &config)?;
    let text = str::from_utf8(text.as_slice()).map_err(|_| anyhow!("no text"))?;
    let value = Value::from_str(alloc, text)?;
    let mut counts = (0, 0);
    for _ in 0..count {
        counts = match work {
            "read" => read(alloc, text.as_bytes())?,
            "write" => write(alloc, &config)?,
            "parse" => parse(alloc, text)?,
            _ => print(alloc, &value)?,
        };
    }
    Ok(counts)
}

fn main(rt: HostRuntime) -> Result<()> {
    let mut words = env::args(&rt)?.skip(1);
    let count = words
        .next()
        .ok_or_else(|| anyhow!("how often?"))?
        .as_str()
        .parse::<u64>()?;
    let work = words
        .next()
        .ok_or_else(|| anyhow!("read, write, parse or print?"))?;
    let (entries, bytes) = counted(rt.alloc(), count, work.as_str())?;
    println!(rt; "{entries} entries, {bytes} bytes")?;
    Ok(())
}
