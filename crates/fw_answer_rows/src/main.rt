//! Answers calls on zones and ipsets and packets from standard input, one a line, over the built-in configuration with an ipset of
//! each kind and some services more. It prints what a client is told of each call, and the outcome of each packet. `start` begins
//! with that configuration again, and `panic` turns panic mode on. The file stdout beside src/ was worked out by hand from the rules
//! in docs/PROFILE.md.
#![tactic(auto)]

mod configuration;

use anyhow::{Result, anyhow};
use configuration::configuration;
use fw_answer::Answer;
use fw_base::Memory;
use fw_call::{Call, Request, read_call};
use fw_line::push_outcome;
use fw_model::{Config, Runtime};
use fw_packet::read_packet;
use fw_told::{Reply, push_reply, push_signal};
use fw_verdict::verdict;
use fw_words::{LineError, Words, split_words};
use std::alloc::Global;

fn main(rt: HostRuntime) -> Result<()> {
    let alloc = rt.alloc();
    let mut runtime = start(alloc)?;
    for line in rt.lines(alloc) {
        let line = line?;
        match line.as_str() {
            "start" => runtime = start(alloc)?,
            "panic" => runtime.panic = true,
            line if line.starts_with('#') => {}
            line => {
                let text = told(alloc, &mut runtime, line).map_err(|_| anyhow!("bad row"))?;
                print!(rt; "{}", text.as_str())?;
            }
        }
    }
    Ok(())
}

fn start(alloc: Global) -> Result<Runtime, Memory> {
    Ok(Runtime {
        panic: false,
        config: configuration(alloc)?,
    })
}

/// What is printed of a line.
fn told(alloc: Global, runtime: &mut Runtime, line: &str) -> Result<String, LineError> {
    let words = split_words(alloc, line)?;
    match words.as_slice() {
        ["packet", described @ ..] => outcome_of(alloc, runtime, described),
        call => answer_to(alloc, &mut runtime.config, call),
    }
}

fn outcome_of(alloc: Global, runtime: &Runtime, words: &[&str]) -> Result<String, LineError> {
    let packet = read_packet(alloc, words)?;
    let mut out = String::new(alloc);
    push_outcome(&mut out, &verdict(alloc, runtime, &packet)?)?;
    Ok(out)
}

/// The signals and the reply of a call, each as its line.
fn answer_to(alloc: Global, config: &mut Config, words: &[&str]) -> Result<String, LineError> {
    let mut out = String::new(alloc);
    match read_call(alloc, &mut Words::of(words))? {
        Request::Call(call) => {
            let answer = answer_of(alloc, config, &call)?;
            for signal in answer.signals.as_slice() {
                push_signal(&mut out, 1, signal)?;
            }
            push_reply(alloc, &mut out, 1, &answer.reply)?;
        }
        Request::Unfit { signature } => {
            push_reply(alloc, &mut out, 1, &Reply::InvalidArgs { signature })?;
        }
    }
    Ok(out)
}

fn answer_of(alloc: Global, config: &mut Config, call: &Call) -> Result<Answer, Memory> {
    match call {
        Call::Zone(call) => fw_zone_calls::answer_call(alloc, config, call),
        Call::Ipset(call) => fw_ipset_calls::answer_call(alloc, config, call),
    }
}
