//! Compiles settings again and again, or asks what becomes of packets under them, and prints what came out in numbers alone. The arguments
//! say how often, what (`compile`, `verdict` or `eval`), how many settings there are, and which: `ports`, so many ports and rich rules of
//! one zone and a tenth as many policies, or `forwards`, so many forward ports over five zones that masquerade. The folder bench/ has the
//! yardstick of `compile`; that of `eval` is `verdict`.
#![tactic(auto)]

ghost use Rattle.fw_valid.specs.Valid.{IsValid};
ghost use Rattle.nf_sound.specs.Sound.{SoundRules};

use anyhow::{Result, anyhow};
use fw_broken::broken_rule;
use fw_model::{Config, Packet, Runtime, Verdict};
use fw_packet::read_packet;
use fw_rows::edit;
use fw_service::built_in_config;
use fw_verdict::verdict;
use fw_words::split_words;
use lower_all::Nft;
use nf_chains::eval_uncounted;
use nf_goal::Compiler;
use nf_rules::Ruleset;
use std::alloc::Global;
use std::env;

/// Does what a line says to a configuration.
fn add(alloc: Global, config: &mut Config, line: &str) -> Result<()> {
    let words = split_words(alloc, line)?;
    Ok(edit(alloc, config, words.as_slice())?)
}

/// So many ports and rich rules in one zone, and a tenth as many policies.
fn add_ports(alloc: Global, config: &mut Config, count: u64) -> Result<()> {
    for number in 0..count {
        let port = number % 60_000 + 1_000;
        let (high, low) = (number / 256 % 256, number % 256);
        let act = if number % 2 == 0 { "accept" } else { "drop" };
        let port_line = format!(in alloc; "set public {port}/udp")?;
        add(alloc, config, port_line.as_str())?;
        let rule_line = format!(in alloc;
            "set public 'rule family=\"ipv4\" source address=\"10.{high}.{low}.0/24\" port port=\"{port}\" protocol=\"tcp\" {act}'"
        )?;
        add(alloc, config, rule_line.as_str())?;
        if number % 10 == 0 {
            let priority = number % 30_000 + 1;
            let policy_line = format!(in alloc;
                "policy p{number} {priority} CONTINUE ANY HOST {port}/sctp"
            )?;
            add(alloc, config, policy_line.as_str())?;
        }
    }
    Ok(())
}

/// The zones that packets go between, by their number.
fn zone(number: u64) -> &'static str {
    match number % 5 {
        0 => "external",
        1 => "home",
        2 => "internal",
        3 => "work",
        _ => "dmz",
    }
}

/// So many forward ports over five zones, each of which has an interface and masquerades. All that is forwarded is let through.
fn add_forwards(alloc: Global, config: &mut Config, count: u64) -> Result<()> {
    add(alloc, config, "policy let 1 ACCEPT ANY ANY")?;
    for number in 0..5 {
        let name = zone(number);
        let bind_line = format!(in alloc; "bind {name} eth{number}")?;
        add(alloc, config, bind_line.as_str())?;
        let masquerade_line = format!(in alloc; "set {name} masquerade")?;
        add(alloc, config, masquerade_line.as_str())?;
    }
    for number in 0..count {
        let name = zone(number);
        let port = number % 60_000 + 1_000;
        let (high, low) = (number / 256 % 256, number % 256);
        let line = format!(in alloc; "set {name} {port}/tcp=8080=10.0.{high}.{low}")?;
        add(alloc, config, line.as_str())?;
    }
    Ok(())
}

/// The settings of a kind.
fn settings(alloc: Global, kind: &str, count: u64) -> Result<Runtime> {
    let mut config = built_in_config(alloc)?;
    match kind {
        "ports" => add_ports(alloc, &mut config, count)?,
        _ => add_forwards(alloc, &mut config, count)?,
    }
    Ok(Runtime {
        panic: false,
        config,
    })
}

/// How many chains and how many rules a ruleset has.
fn counted(rules: &Ruleset) -> (usize, usize) {
    let mut count: usize = 0;
    for chain in rules.chains.as_slice() {
        count = count.wrapping_add(chain.rules.as_slice().len());
    }
    (rules.chains.as_slice().len(), count)
}

/// Compiles the settings so often, and tells how many chains and rules come out each time.
fn compile_often(alloc: Global, runtime: &Runtime, count: u64) -> Result<(usize, usize)>
    requires { IsValid runtime.now.config }
{
    let mut last = (0, 0);
    for _ in 0..count {
        last = counted(&Nft.compile(alloc, runtime)?);
    }
    Ok(last)
}

/// The packets that are asked about of many ports: one of a rich rule in the middle, one that nothing lets in, and one of the last policy.
const TO_PORTS: [&str; 3] = [
    "in=eth0 src=10.0.50.1 dst=198.51.100.1 proto=tcp sport=40000 dport=1050",
    "in=eth0 src=192.0.2.1 dst=198.51.100.1 proto=tcp sport=40000 dport=9",
    "in=eth0 src=192.0.2.1 dst=198.51.100.1 proto=sctp sport=40000 dport=1990",
];

/// Those of many forward ports: one of a port in the middle, one of the last that its zone has, and one of none, which the host refuses.
const FORWARDED: [&str; 3] = [
    "in=eth0 src=192.0.2.1 dst=198.51.100.1 proto=tcp sport=40000 dport=1500 route=10.0.0.0/8,eth1",
    "in=eth1 src=192.0.2.1 dst=198.51.100.1 proto=tcp sport=40000 dport=1996 route=10.0.0.0/8,eth2",
    "in=eth1 src=192.0.2.1 dst=198.51.100.1 proto=tcp sport=40000 dport=9 route=10.0.0.0/8,eth2",
];

fn packets(alloc: Global, kind: &str) -> Result<Vec<Packet>> {
    let lines = match kind {
        "ports" => TO_PORTS,
        _ => FORWARDED,
    };
    let mut packets = Vec::new(alloc);
    for line in lines {
        let words = split_words(alloc, line)?;
        packets.push(read_packet(alloc, words.as_slice())?)?;
    }
    Ok(packets)
}

/// Asks the walk so often what becomes of the packets, and counts how often one is let in.
fn walk_often(alloc: Global, runtime: &Runtime, packets: &[Packet], count: u64) -> Result<u64> {
    let mut accepted: u64 = 0;
    for _ in 0..count {
        for packet in packets {
            if verdict(alloc, runtime, packet)?.verdict == Verdict::Accept {
                accepted = accepted.wrapping_add(1);
            }
        }
    }
    Ok(accepted)
}

/// Asks a ruleset so often.
fn evaluate_often(alloc: Global, rules: &Ruleset, packets: &[Packet], count: u64) -> Result<u64>
    requires { SoundRules rules.now }
{
    let mut accepted: u64 = 0;
    for _ in 0..count {
        for packet in packets {
            if eval_uncounted(alloc, rules, packet)?.verdict == Verdict::Accept {
                accepted = accepted.wrapping_add(1);
            }
        }
    }
    Ok(accepted)
}

/// Does the work so often, and gives what is to be printed.
fn worked(
    alloc: Global,
    runtime: &Runtime,
    packets: &[Packet],
    work: &str,
    count: u64,
) -> Result<String>
    requires { IsValid runtime.now.config }
{
    match work {
        "compile" => {
            let (chains, rules) = compile_often(alloc, runtime, count)?;
            Ok(format!(in alloc; "{chains} chains, {rules} rules")?)
        }
        "verdict" => {
            let accepted = walk_often(alloc, runtime, packets, count)?;
            Ok(format!(in alloc; "{accepted} accepted")?)
        }
        _ => {
            let rules = Nft.compile(alloc, runtime)?;
            let accepted = evaluate_often(alloc, &rules, packets, count)?;
            Ok(format!(in alloc; "{accepted} accepted")?)
        }
    }
}

/// The same, where the settings are valid.
fn worked_if_valid(
    alloc: Global,
    runtime: &Runtime,
    packets: &[Packet],
    work: &str,
    count: u64,
) -> Result<String> {
    if broken_rule(&runtime.config).is_some() {
        return Err(anyhow!("the settings aren't valid"));
    }
    worked(alloc, runtime, packets, work, count)
}

fn main(rt: HostRuntime) -> Result<()> {
    let alloc = rt.alloc();
    let mut words = env::args(&rt)?.skip(1);
    let (Some(count), Some(work), Some(size), Some(kind)) = (
        words.next(),
        words.next(),
        words.next(),
        words.next(),
    ) else {
        return Err(anyhow!("how often, what, over how many, and of which settings?"));
    };
    let runtime = settings(alloc, kind.as_str(), size.as_str().parse::<u64>()?)?;
    let packets = packets(alloc, kind.as_str())?;
    let text = worked_if_valid(
        alloc,
        &runtime,
        packets.as_slice(),
        work.as_str(),
        count.as_str().parse::<u64>()?,
    )?;
    println!(rt; "{}", text.as_str())?;
    Ok(())
}
