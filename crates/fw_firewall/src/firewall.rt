//! The firewall: what each line of a script does.
ghost use Rattle.std.specs.Prelude.{◌≡◌, ◌<◌, ◌++◌, IfOk, OnOk, None, Some, drop, string_bytes};
ghost use Rattle.std.specs.List.{flat_map};
ghost use Rattle.fw_line.specs.Asked.{IsAsked};
ghost use Rattle.fw_run.specs.Language.{RunsLine};
ghost use Rattle.fw_told.specs.Told.{signal_line};
ghost use Rattle.fw_firewall.specs.Script.{answered, call_step, end_step, end_text, first_state, known, line_step, packet_step, step};
ghost use Rattle.fw_firewall.specs.Sessions.{told_to};

use super::sessions::Sessions;
use fw_answer::Answer;
use fw_base::{Memory, Seq};
use fw_call::Call;
use fw_line::{Line, push_outcome, read_line};
use fw_model::{Config, Packet, Runtime};
use fw_run::Machine;
use fw_service::built_in_config;
use fw_told::{Reply, Signal, push_reply, push_signal};
use fw_verdict::verdict;
use fw_words::LineError;
use std::alloc::Global;
use std::marker::Model;

/// The settings in force, the sessions of a script's clients, and all signals so far.
#[derive(Drop)]
pub struct Firewall {
    runtime: Runtime,
    sessions: Sessions,
    signals: Seq<Signal>,
}

impl Model for Firewall {
    ghost use Rattle.fw_firewall.specs.Script.{State};

    ghost Value = { State };

    ghost view = { λ firewall. record { runtime = firewall.runtime; sessions = firewall.sessions; signals = firewall.signals } };
}

impl Firewall {
    /// The firewall with its built-in settings, before any client's call.
    ///
    /// Refuses for want of memory alone.
    pub fn new(alloc: Global) -> Result<Firewall, Memory>
        ensures { IfOk result (λ firewall. firewall ≡ first_state) }
    {
        Ok(Firewall {
            runtime: Runtime {
                panic: false,
                config: built_in_config(alloc)?,
            },
            sessions: Sessions::none(alloc)?,
            signals: Seq::new(alloc),
        })
    }

    /// Runs what a line says, and appends what it prints.
    fn run(&mut self, alloc: Global, line: Line, out: &mut String) -> Result<(), Memory>
        requires { IsAsked line }
        ensures text { OnOk result (string_bytes out.new ≡ string_bytes out.old ++ (line_step self.old line).text) }
        ensures state { OnOk result (self.new ≡ (line_step self.old line).state) }
    {
        match line {
            Line::Skip => Ok(()),
            Line::Call { client, call } => self.call(alloc, client, &call, out),
            Line::Unfit { client, signature } => {
                push_reply(alloc, out, client, &Reply::InvalidArgs { signature })
            }
            Line::End { client } => self.end(client, out),
            Line::Packet(packet) => self.look(alloc, &packet, out),
        }
    }

    /// Answers a call of a client, whose session it opens if there is none.
    fn call(
        &mut self,
        alloc: Global,
        client: u16,
        call: &Call,
        out: &mut String,
    ) -> Result<(), Memory>
        requires { client < 10000 }
        ensures text { OnOk result (string_bytes out.new ≡ string_bytes out.old ++ (call_step self.old client call.now).text) }
        ensures state { OnOk result (self.new ≡ (call_step self.old client call.now).state) }
    {
        let known = self.known(client);
        let answer = answer_call(alloc, &mut self.runtime.config, call)?;
        add_all(&mut self.signals, answer.signals)?;
        push_signals(out, client, &self.signals, known)?;
        push_reply(alloc, out, client, &answer.reply)?;
        self.sessions
            .set(client, Some(self.signals.as_slice().len()));
        Ok(())
    }

    /// How many of the signals so far a client knows of.
    fn known(&self, client: u16) -> usize
        requires { client < 10000 }
        ensures { result ≡ known self.now (told_to self.now.sessions client) }
    {
        match self.sessions.told(client) {
            Some(told) => told,
            None => self.signals.as_slice().len(),
        }
    }

    /// Closes the session of a client.
    fn end(&mut self, client: u16, out: &mut String) -> Result<(), Memory>
        requires { client < 10000 }
        ensures text { OnOk result (string_bytes out.new ≡ string_bytes out.old ++ (end_step self.old client).text) }
        ensures state { OnOk result (self.new ≡ (end_step self.old client).state) }
    {
        match self.sessions.told(client) {
            Some(_) => write!(out, "end {client}\n")?,
            None => write!(out, "end {client} not-open\n")?,
        }
        self.sessions.set(client, None);
        Ok(())
    }

    /// Tells what becomes of a packet.
    fn look(&self, alloc: Global, packet: &Packet, out: &mut String) -> Result<(), Memory>
        ensures { OnOk result (string_bytes out.new ≡ string_bytes out.old ++ (packet_step self.now packet.now).text) }
    {
        let outcome = verdict(alloc, &self.runtime, packet)?;
        push_outcome(out, &outcome)
    }
}

/// Answers a call by the crate that has the calls on what it is about.
fn answer_call(alloc: Global, config: &mut Config, call: &Call) -> Result<Answer, Memory>
    ensures answered { IfOk result (λ answer. answered config.old call.now ≡ record { signals = answer.signals; reply = answer.reply; after = config.new }) }
{
    match call {
        Call::Zone(call) => fw_zone_calls::answer_call(alloc, config, call),
        Call::Ipset(call) => fw_ipset_calls::answer_call(alloc, config, call),
    }
}

/// Appends signals to those so far.
fn add_all(signals: &mut Seq<Signal>, new: Seq<Signal>) -> Result<(), Memory>
    ensures { OnOk result (signals.new ≡ signals.old ++ new) }
{
    for signal in new.into_vec() {
        signals.push(signal)?;
    }
    Ok(())
}

/// Appends the lines of the signals behind the first so many.
fn push_signals(
    out: &mut String,
    client: u16,
    signals: &Seq<Signal>,
    known: usize,
) -> Result<(), Memory>
    ensures { OnOk result (string_bytes out.new ≡ string_bytes out.old ++ flat_map (signal_line client) (drop known signals.now)) }
{
    let Some(untold) = signals.as_slice().get(known..) else {
        return Ok(());
    };
    for signal in untold {
        push_signal(out, client, signal)?;
    }
    Ok(())
}

impl Machine for Firewall {
    ghost use Rattle.fw_firewall.specs.Script.{step};

    ghost step = { step };

    fn run_line(&mut self, alloc: Global, line: &[u8], out: &mut String) -> Result<(), LineError>
        ensures { RunsLine result (step self.old line.now) self.old self.new (string_bytes out.old) (string_bytes out.new) }
    {
        let line = read_line(alloc, line)?;
        self.run(alloc, line, out)?;
        Ok(())
    }
}
