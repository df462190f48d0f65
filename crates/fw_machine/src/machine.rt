//! What an event is to do.
ghost use Rattle.std.specs.Prelude.{◌≡◌, ◌≤◌, true, false, Result, IfOk, IsOk};
ghost use Rattle.fw_act.specs.Acts.{Answered, Stops, replied};
ghost use Rattle.fw_calls.specs.declared.reply.Refusal.{Refusal};
ghost use Rattle.fw_settings.specs.declared.settings.Settings.{Settings as SettingsValue};
ghost use Rattle.fw_machine.specs.Machine.{IsFree, IsQuiet, asks, called, step, takes_none};
ghost use Rattle.fw_proposals.specs.Proposals.{Proposes, or_refused};
ghost use Rattle.fw_settings.specs.Valid.{last_time};
ghost use Rattle.fw_time_links.specs.Linking.{linked};
ghost use Rattle.fw_time_links.specs.Ticking.{ticked};

use super::calls::{ask, change, flag};
use fw_act::{Stop, replied};
use fw_addr::Iface;
use fw_base::{Memory, TryCopy};
use fw_calls::{Call, Event, Reply};
use fw_proposals::{propose, propose_refusal, propose_unchanged};
use fw_settings::{Proposal, Settings};
use fw_time_links::{link_member, tick_member};
use std::alloc::Global;

/// What an event is to do: its reply and its signals where nothing fails, the settings afterwards where it changes them, and whether
/// they are to be saved and committed. The settings themselves stay; `settle` takes what is proposed.
///
/// A call that may not be carried out is answered with its refusal, and nothing is to be done. Refuses for want of memory alone, and
/// never the beginning or the end of a session, or, where they aren't refused, `queryService`, `queryPort`, `queryProtocol`,
/// `querySourcePort`, `queryMasquerade`, `queryInterface` and `queryPanicMode`: of these nobody is told, and nothing is to be done. A call that only asks copies no
/// settings.
#[tactic(auto, unfolding(crate::specs::Machine::step))]
pub fn step(alloc: Global, settings: &Settings, event: &Event) -> Result<Proposal, Memory>
    requires { settings.now.now ≤ last_time }
    ensures proposes { IfOk result (λ proposal. Proposes settings.entry.now (step settings.entry.now event.now) proposal) }
    ensures free { IsFree settings.entry.now event.now → IsOk result }
    ensures quiet { IfOk result (λ proposal. IsFree settings.entry.now event.now → IsQuiet proposal) }
{
    match event {
        Event::Open => Ok(reply(alloc, settings, Reply::Opened)),
        Event::Call { call, .. } => step_call(alloc, settings, call),
        Event::Tick { now, .. } => step_tick(alloc, settings, *now),
        Event::Link { up, name, .. } => step_link(alloc, settings, *up, name),
        Event::Shut { .. } => Ok(reply(alloc, settings, Reply::Shut)),
    }
}

/// A reply, and nothing is to be done.
fn reply(alloc: Global, settings: &Settings, reply: Reply) -> Proposal
    ensures proposes { Proposes settings.entry.now (replied settings.entry.now reply) result }
    ensures quiet { IsQuiet result }
{
    propose_unchanged(settings, replied(alloc, reply))
}

fn step_call(alloc: Global, settings: &Settings, call: &Call) -> Result<Proposal, Memory>
    requires { settings.now.now ≤ last_time }
    ensures proposes { IfOk result (λ proposal. Proposes settings.entry.now (or_refused settings.entry.now (called settings.entry.now call.now)) proposal) }
    ensures free { takes_none call.now ≡ true → IsOk (called settings.entry.now call.now) → IsOk result }
    ensures quiet { IfOk result (λ proposal. takes_none call.now ≡ true → IsOk (called settings.entry.now call.now) → IsQuiet proposal) }
{
    match flag(settings, call) {
        Some(flag) => Ok(reply(alloc, settings, Reply::Bool(flag))),
        None => step_other(alloc, settings, call),
    }
}

/// A call that is not, or isn't known to be, a query that takes no memory.
fn step_other(alloc: Global, settings: &Settings, call: &Call) -> Result<Proposal, Memory>
    requires { settings.now.now ≤ last_time }
    ensures { IfOk result (λ proposal. Proposes settings.entry.now (or_refused settings.entry.now (called settings.entry.now call.now)) proposal) }
{
    match ask(alloc, settings, call) {
        Ok(Some(answer)) => Ok(propose_unchanged(settings, answer)),
        Ok(None) => step_change(alloc, settings, call),
        Err(stop) => stopped(alloc, settings, stop),
    }
}

fn step_change(alloc: Global, settings: &Settings, call: &Call) -> Result<Proposal, Memory>
    requires change { asks call.now ≡ false }
    requires now { settings.now.now ≤ last_time }
    ensures { IfOk result (λ proposal. Proposes settings.entry.now (or_refused settings.entry.now (called settings.entry.now call.now)) proposal) }
{
    let mut after = settings.copy(alloc)?;
    match change(alloc, &mut after, call) {
        Ok(answer) => Ok(propose(settings, answer, after)),
        Err(stop) => stopped(alloc, settings, stop),
    }
}

/// What is to be done of a call that isn't carried out.
fn stopped(alloc: Global, settings: &Settings, stop: Stop) -> Result<Proposal, Memory>
    ensures { IfOk result (λ proposal. (wanted : Result (Answered SettingsValue) Refusal) → Stops stop wanted → Proposes settings.entry.now (or_refused settings.entry.now wanted) proposal) }
{
    match stop {
        Stop::Refused(refusal) => Ok(propose_refusal(alloc, settings, refusal)),
        Stop::Memory => Err(Memory),
    }
}

fn step_tick(alloc: Global, settings: &Settings, now: u64) -> Result<Proposal, Memory>
    ensures { IfOk result (λ proposal. Proposes settings.entry.now (ticked settings.entry.now now) proposal) }
{
    let mut after = settings.copy(alloc)?;
    let answer = tick_member(alloc, &mut after, now)?;
    Ok(propose(settings, answer, after))
}

fn step_link(alloc: Global, settings: &Settings, up: bool, name: &Iface) -> Result<Proposal, Memory>
    ensures { IfOk result (λ proposal. Proposes settings.entry.now (linked settings.entry.now up name.now) proposal) }
{
    let mut after = settings.copy(alloc)?;
    let answer = link_member(alloc, &mut after, up, name)?;
    Ok(propose(settings, answer, after))
}
