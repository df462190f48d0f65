//! What becomes of packets on their whole way: marks, translation, routing, the filter with its lines of denied packets, and
//! postrouting. The files stdin and stdout beside src/ are one table, worked out by hand from the rules in docs/PROFILE.md.
//!
//! `packet WORDS` tells what becomes of a packet, `denied KIND` says which denied packets are told of, `panic` and `calm` begin and end
//! panic mode, and `clear` begins anew from the built-in configuration. All other lines are those of `fw_rows`.
#![tactic(auto)]

use anyhow::Result;
use fw_base::Memory;
use fw_line::push_outcome;
use fw_model::{LogDenied, Runtime};
use fw_packet::read_packet;
use fw_rows::edit;
use fw_service::built_in_config;
use fw_verdict::verdict;
use fw_words::{LineError, split_words};
use std::alloc::Global;

fn main(rt: HostRuntime) -> Result<()> {
    let alloc = rt.alloc();
    let mut runtime = built_in(alloc)?;
    for line in rt.lines(alloc) {
        let line = line?;
        if !line.starts_with('#') {
            let text = done(alloc, &mut runtime, line.as_str())?;
            print!(rt; "{}", text.as_str())?;
        }
    }
    Ok(())
}

fn built_in(alloc: Global) -> Result<Runtime, Memory> {
    Ok(Runtime {
        panic: false,
        config: built_in_config(alloc)?,
    })
}

/// Does what a line says, and gives what is to be printed.
fn done(alloc: Global, runtime: &mut Runtime, line: &str) -> Result<String, LineError> {
    let words = split_words(alloc, line)?;
    let mut out = String::new(alloc);
    let [kind, rest @ ..] = words.as_slice() else {
        return Err(LineError::BadLine);
    };
    match *kind {
        "clear" => *runtime = built_in(alloc)?,
        "panic" => runtime.panic = true,
        "calm" => runtime.panic = false,
        "denied" => runtime.config.log_denied = read_denied(rest)?,
        "packet" => {
            let packet = read_packet(alloc, rest)?;
            push_outcome(&mut out, &verdict(alloc, runtime, &packet)?)?;
        }
        _ => edit(alloc, &mut runtime.config, words.as_slice())?,
    }
    Ok(out)
}

fn read_denied(words: &[&str]) -> Result<LogDenied, LineError> {
    let [kind] = words else {
        return Err(LineError::BadLine);
    };
    match *kind {
        "off" => Ok(LogDenied::Off),
        "all" => Ok(LogDenied::All),
        "unicast" => Ok(LogDenied::Unicast),
        "broadcast" => Ok(LogDenied::Broadcast),
        "multicast" => Ok(LogDenied::Multicast),
        _ => Err(LineError::BadLine),
    }
}
