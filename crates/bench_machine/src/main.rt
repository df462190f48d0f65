//! Settings of which a zone has 1,000 ports get one more and lose it again, event by event of the settings machine, and what was done and
//! is in force then is counted. The first argument says how many events, the second which: `add`, or beside it `query` (the events only
//! ask for a port, and copy no settings) or `copy` (no event at all, but a copy of all settings for each).
#![tactic(auto)]

use anyhow::{Result, anyhow};
use fw_addr::{PortProto, PortRange};
use fw_base::{Memory, Text, TryCopy};
use fw_calls::{Applied, Call, Event, Reply, SettingVerb, SettingWords, ZoneCall};
use fw_machine::step;
use fw_model::{Config, Port, Zone};
use fw_service::built_in_config;
use fw_settings::{Proposal, Settings, settle, start};
use std::alloc::Global;
use std::env;

/// How many ports the zone has at first: 1, 2 and so on.
const HELD: u16 = 1_000;

/// The latest time that the machine can be told, in seconds.
const LAST_TIME: u64 = 1 << 62;

fn push_ports(zone: &mut Zone) -> Result<(), Memory> {
    for number in 1..=HELD {
        let range = PortRange {
            first: number,
            last: number,
        };
        let proto = PortProto::Tcp;
        zone.rules.ports.push(Port { range, proto })?;
    }
    Ok(())
}

/// Gives the first zone its ports.
fn fill(config: &mut Config) -> Result<(), Memory> {
    if config.zones.as_slice().is_empty() {
        return Ok(());
    }
    push_ports(config.zones.get_mut(0))
}

fn configuration(alloc: Global) -> Result<Config, Memory> {
    let mut config = built_in_config(alloc)?;
    match fill(&mut config) {
        Ok(()) => Ok(config),
        Err(error) => Err(error),
    }
}

fn full(alloc: Global) -> Result<Settings, Memory> {
    let config = configuration(alloc)?;
    start(alloc, config)
}

/// A call on one port more of the first zone.
fn event(alloc: Global, verb: SettingVerb) -> Result<Event, Memory> {
    let zone = Text::of(alloc, "block")?;
    let port = Text::of(alloc, "2000")?;
    let protocol = Text::of(alloc, "tcp")?;
    Ok(Event::Call {
        session: 0,
        call: Call::Zone(ZoneCall::Setting {
            verb,
            zone,
            setting: SettingWords::Port { port, protocol },
        }),
    })
}

fn became(is_needed: bool) -> Applied {
    if is_needed {
        Applied::Done
    } else {
        Applied::Skipped
    }
}

/// Does what an event is to do, and tells whether it was not refused.
fn take(settings: &mut Settings, proposal: Proposal) -> bool {
    let save = became(proposal.needs_save);
    let commit = became(proposal.needs_commit);
    let (reply, signals) = settle(settings, proposal, save, commit);
    match reply {
        Reply::Text(_) => signals.as_slice().len() == 1,
        Reply::Bool(_) => signals.as_slice().is_empty(),
        _ => false,
    }
}

/// Proposes what an event is to do and does it, and tells whether it was not refused.
fn happen(alloc: Global, settings: &mut Settings, event: &Event) -> Result<bool, Memory> {
    if settings.now > LAST_TIME {
        return Ok(false);
    }
    match step(alloc, settings, event) {
        Ok(proposal) => Ok(take(settings, proposal)),
        Err(error) => Err(error),
    }
}

/// How many ports the first zone in force has.
fn held(settings: &Settings) -> usize {
    match settings.runtime.config.zones.as_slice().first() {
        Some(zone) => zone.rules.ports.as_slice().len(),
        None => 0,
    }
}

/// Copies all settings, and tells whether the copy has their ports.
fn copied(alloc: Global, settings: &Settings) -> Result<bool, Memory> {
    let copy = settings.copy(alloc)?;
    Ok(held(&copy) == held(settings))
}

/// How many of so many events are not refused, where the first and the other take turns.
fn happen_often(
    alloc: Global,
    settings: &mut Settings,
    count: u64,
    first: &Event,
    other: &Event,
) -> Result<u64, Memory> {
    let mut done: u64 = 0;
    for turn in 0..count {
        let event = if turn % 2 == 0 { first } else { other };
        if happen(alloc, settings, event)? {
            done = done.wrapping_add(1);
        }
    }
    Ok(done)
}

fn copy_often(alloc: Global, settings: &Settings, count: u64) -> Result<u64, Memory> {
    let mut done: u64 = 0;
    for _ in 0..count {
        if copied(alloc, settings)? {
            done = done.wrapping_add(1);
        }
    }
    Ok(done)
}

fn add_often(alloc: Global, settings: &mut Settings, count: u64) -> Result<u64, Memory> {
    let first = event(alloc, SettingVerb::Add { timeout: 0 })?;
    let other = event(alloc, SettingVerb::Remove)?;
    happen_often(alloc, settings, count, &first, &other)
}

fn query_often(alloc: Global, settings: &mut Settings, count: u64) -> Result<u64, Memory> {
    let query = event(alloc, SettingVerb::Query)?;
    happen_often(alloc, settings, count, &query, &query)
}

/// Does the work so often, and tells what was done and how many ports are in force.
fn counted(alloc: Global, count: u64, work: &str) -> Result<(u64, usize), Memory> {
    let mut settings = full(alloc)?;
    let done = match work {
        "add" => add_often(alloc, &mut settings, count),
        "query" => query_often(alloc, &mut settings, count),
        _ => copy_often(alloc, &settings, count),
    };
    match done {
        Ok(done) => Ok((done, held(&settings))),
        Err(error) => Err(error),
    }
}

fn main(rt: HostRuntime) -> Result<()> {
    let mut words = env::args(&rt)?.skip(1);
    let count = words
        .next()
        .ok_or_else(|| anyhow!("how many events?"))?
        .as_str()
        .parse::<u64>()?;
    let work = words.next().ok_or_else(|| anyhow!("add, query or copy?"))?;
    let (done, ports) = counted(rt.alloc(), count, work.as_str())?;
    println!(rt; "{done} done, {ports} ports")?;
    Ok(())
}
