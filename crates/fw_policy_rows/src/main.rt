//! Policies over the built-in configuration, one a line, and what becomes of packets under them. The files stdin and stdout
//! beside src/ are one table, worked out by hand from the rules in docs/PROFILE.md.
//!
//! `packet WORDS` tells what becomes of a packet, `faults` what is wrong with each policy, and `clear` begins anew. All other lines are
//! those of `fw_rows`.
#![tactic(auto)]

use anyhow::Result;
use fw_line::push_outcome;
use fw_model::{Config, Runtime};
use fw_packet::read_packet;
use fw_policy::{Fault, first_fault};
use fw_rows::edit;
use fw_service::built_in_config;
use fw_verdict::verdict;
use fw_words::{LineError, split_words};
use std::alloc::Global;

fn main(rt: HostRuntime) -> Result<()> {
    let alloc = rt.alloc();
    let mut runtime = Runtime {
        panic: false,
        config: built_in_config(alloc)?,
    };
    for line in rt.lines(alloc) {
        let line = line?;
        if !line.starts_with('#') {
            let text = done(alloc, &mut runtime, line.as_str())?;
            print!(rt; "{}", text.as_str())?;
        }
    }
    Ok(())
}

/// Does what a line says, and gives what is to be printed.
fn done(alloc: Global, runtime: &mut Runtime, line: &str) -> Result<String, LineError> {
    let words = split_words(alloc, line)?;
    let mut out = String::new(alloc);
    let [kind, rest @ ..] = words.as_slice() else {
        return Err(LineError::BadLine);
    };
    match *kind {
        "clear" => runtime.config = built_in_config(alloc)?,
        "packet" => {
            let packet = read_packet(alloc, rest)?;
            push_outcome(&mut out, &verdict(alloc, runtime, &packet)?)?;
        }
        "faults" => push_faults(&mut out, &runtime.config)?,
        _ => edit(alloc, &mut runtime.config, words.as_slice())?,
    }
    Ok(out)
}

/// A line for each policy: its name, and what is wrong with it.
fn push_faults(out: &mut String, config: &Config) -> Result<(), LineError> {
    for policy in config.policies.as_slice() {
        out.push_str(policy.name.as_str())?;
        match first_fault(policy, config.zones.as_slice()) {
            Some(fault) => push_fault(out, fault)?,
            None => out.push_str(" fine\n")?,
        }
    }
    Ok(())
}

/// The code of a fault, and which it is.
fn push_fault(out: &mut String, fault: Fault) -> Result<(), LineError> {
    out.push_str(" ")?;
    out.push_str(fault.code().name())?;
    match fault {
        Fault::Priority => out.push_str(" priority\n")?,
        Fault::UnknownIngress(place) => writeln!(out, " ingress {place}")?,
        Fault::UnknownEgress(place) => writeln!(out, " egress {place}")?,
        Fault::NotAlone => out.push_str(" not alone\n")?,
        Fault::HostToHost => out.push_str(" host to host\n")?,
        Fault::Masquerade => out.push_str(" masquerade\n")?,
        Fault::Forward => out.push_str(" forward\n")?,
        Fault::Mark => out.push_str(" mark\n")?,
    }
    Ok(())
}
