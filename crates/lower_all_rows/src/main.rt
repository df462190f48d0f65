//! Configurations, and what becomes of packets under them, both by the walk over the settings and by the ruleset that they are compiled
//! to. The files stdin and stdout beside src/ are one table, worked out by hand from the rules in docs/PROFILE.md.
//!
//! `packet WORDS` tells what becomes of a packet, and once more where the ruleset says otherwise; `rules` prints the ruleset, `denied KIND`
//! says which denied packets are told of, `panic` and `calm` begin and end panic mode, and `clear` begins anew from the built-in
//! configuration. All other lines are those of `fw_rows`.
#![tactic(auto)]

ghost use Rattle.std.specs.Prelude.{IfOk, IfSome};
ghost use Rattle.nf_sound.specs.Sound.{SoundRules};

use anyhow::Result;
use fw_base::Memory;
use fw_broken::broken_rule;
use fw_line::push_outcome;
use fw_model::{LogDenied, Packet, Runtime};
use fw_packet::read_packet;
use fw_rows::edit;
use fw_service::built_in_config;
use fw_verdict::verdict;
use fw_words::{LineError, split_words};
use lower_all::Nft;
use nf_chains::eval_uncounted;
use nf_goal::Compiler;
use nf_rules::{Ruleset, print};
use std::alloc::Global;

fn main(rt: HostRuntime) -> Result<()> {
    let alloc = rt.alloc();
    let mut runtime = built_in(alloc)?;
    for line in rt.lines(alloc) {
        let line = line?;
        if !line.starts_with('#') {
            let text = done(alloc, &mut runtime, line.as_str())?;
            print!(rt; "{}", text.as_str())?;
        }
    }
    Ok(())
}

fn built_in(alloc: Global) -> Result<Runtime, Memory> {
    Ok(Runtime {
        panic: false,
        config: built_in_config(alloc)?,
    })
}

/// Does what a line says, and gives what is to be printed.
fn done(alloc: Global, runtime: &mut Runtime, line: &str) -> Result<String, LineError> {
    let words = split_words(alloc, line)?;
    let mut out = String::new(alloc);
    let [kind, rest @ ..] = words.as_slice() else {
        return Err(LineError::BadLine);
    };
    match *kind {
        "clear" => *runtime = built_in(alloc)?,
        "panic" => runtime.panic = true,
        "calm" => runtime.panic = false,
        "denied" => runtime.config.log_denied = read_denied(rest)?,
        "packet" => push_packet(alloc, &mut out, runtime, &read_packet(alloc, rest)?)?,
        "rules" => match compiled(alloc, runtime)? {
            Some(rules) => out.push_str(print(alloc, &rules)?.as_str())?,
            None => out.push_str("no such ruleset\n")?,
        },
        _ => edit(alloc, &mut runtime.config, words.as_slice())?,
    }
    Ok(out)
}

fn read_denied(words: &[&str]) -> Result<LogDenied, LineError> {
    let [kind] = words else {
        return Err(LineError::BadLine);
    };
    match *kind {
        "off" => Ok(LogDenied::Off),
        "all" => Ok(LogDenied::All),
        "unicast" => Ok(LogDenied::Unicast),
        "broadcast" => Ok(LogDenied::Broadcast),
        "multicast" => Ok(LogDenied::Multicast),
        _ => Err(LineError::BadLine),
    }
}

/// The ruleset of the settings, where these are valid.
fn compiled(alloc: Global, runtime: &Runtime) -> Result<Option<Ruleset>, Memory>
    ensures { IfOk result (λ found. IfSome found SoundRules) }
{
    if broken_rule(&runtime.config).is_some() {
        return Ok(None);
    }
    Ok(Some(Nft.compile(alloc, runtime)?))
}

/// What becomes of a packet by the settings, and by their ruleset where that says otherwise.
fn push_packet(
    alloc: Global,
    out: &mut String,
    runtime: &Runtime,
    packet: &Packet,
) -> Result<(), LineError> {
    let walked = verdict(alloc, runtime, packet)?;
    push_outcome(out, &walked)?;
    let Some(rules) = compiled(alloc, runtime)? else {
        out.push_str("no such ruleset\n")?;
        return Ok(());
    };
    let evaluated = eval_uncounted(alloc, &rules, packet)?;
    if evaluated != walked {
        out.push_str("but by the ruleset:\n")?;
        push_outcome(out, &evaluated)?;
    }
    Ok(())
}
