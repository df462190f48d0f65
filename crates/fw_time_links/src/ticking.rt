//! The time is told.
ghost use Rattle.std.specs.Prelude.{◌≡◌, map, IfOk, OnErr};
ghost use Rattle.fw_time_links.specs.Ticking.{at_time, ended_signal, ticked};

use fw_act::Answer;
use fw_base::{Memory, Seq};
use fw_calls::{Applied, Reply, Signal};
use fw_model::Timed;
use fw_settings::Settings;
use fw_zone_edits::{end_all, removed_signal};
use std::alloc::Global;

/// The signals of settings that ended, in their order.
fn ended_signals(alloc: Global, timers: &[Timed]) -> Result<Seq<Signal>, Memory>
    ensures { IfOk result (λ signals. signals ≡ map ended_signal timers.now) }
{
    let mut signals = Seq::new(alloc);
    for timed in timers {
        signals.push(removed_signal(alloc, timed.zone.as_str(), &timed.setting)?)?;
    }
    Ok(signals)
}

/// What is due by a time ends, each in its zone and with its signal.
fn at_time(alloc: Global, settings: &mut Settings, now: u64) -> Result<Answer, Memory>
    ensures acts { IfOk result (λ answer. at_time settings.old now ≡ record { signals = answer.signals; reply = answer.reply; after = settings.new }) }
    ensures err { OnErr result (settings.new ≡ settings.old) }
{
    let due = settings.timers.due(alloc, now)?;
    let signals = ended_signals(alloc, due.as_slice())?;
    end_all(&mut settings.runtime.config.zones, due.as_slice());
    settings.timers.end_due(now);
    settings.now = now;
    Ok(Answer {
        signals,
        reply: Reply::Event(Applied::Skipped),
    })
}

/// The time is told, in seconds: the settings whose time has come end, by their deadlines, and those of one deadline in the order in
/// which they were added. Time doesn't go back. The reply has the result of the commit, which isn't tried yet.
///
/// Refuses for want of memory alone; nothing changes then.
#[tactic(auto, unfolding(crate::specs::Ticking::ticked))]
pub fn tick_member(alloc: Global, settings: &mut Settings, told: u64) -> Result<Answer, Memory>
    ensures acts { IfOk result (λ answer. ticked settings.old told ≡ record { signals = answer.signals; reply = answer.reply; after = settings.new }) }
    ensures err { OnErr result (settings.new ≡ settings.old) }
{
    let now = settings.now.max(told);
    at_time(alloc, settings, now)
}
