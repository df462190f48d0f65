//! What a ruleset makes of a packet.
ghost use Rattle.std.specs.Prelude.{◌≡◌, ℕ, ◌+◌, ◌<◌, [], IfOk, OnOk, unwrap_or};
ghost use Rattle.nf_sound.specs.Sound.{SoundRules};
ghost use Rattle.nf_chains.specs.Hooks.{Eval, HasVerdict, Visits};

use crate::course::Course;
use crate::way::evaluated;
use fw_addr::LogLine;
use fw_base::{Memory, Seq};
use fw_model::{Outcome, Packet, Verdict};
use fw_steps::Steps;
use nf_rules::Ruleset;
use std::alloc::Global;
use std::marker::Brand;
use std::sync::ledger::{Blank, Ledger};

/// What the ruleset makes of the packet. Each rule that is looked at is a step.
///
/// A packet that came by an interface meets the base chains at prerouting, and then, by its routes, those at input, or those at
/// forward and postrouting; a packet of the host those at output and postrouting. Those of one hook run by ascending priority, and
/// of equal priority by name; those of kind nat are met by packets of state new alone. Routing is by the destination that rules have
/// made, and a translation without an address sends the packet to the host.
///
/// Refuses for want of memory alone, where lines are logged.
pub fn eval<L: Ledger>(
    alloc: Global,
    rules: &Ruleset,
    packet: &Packet,
    steps: &mut Steps<L>,
) -> Result<Outcome, Memory>
    requires { SoundRules rules.now }
    ensures outcome { IfOk result (λ outcome. Eval rules.now packet.now outcome) }
    ensures visits { OnOk result ((looked : ℕ) × Visits rules.now packet.now looked × (steps.new ≡ steps.old + looked)) }
{
    let mut course = Course::of(packet);
    let mut journal = Some(Seq::new(alloc));
    let verdict = evaluated(rules, packet, &mut course, &mut journal, steps)?;
    Ok(Outcome {
        verdict,
        mark: course.parts.mark,
        dnat: course.translation,
        masquerade: course.masquerade,
        logs: lines_of(alloc, journal),
    })
}

/// The lines that were kept.
fn lines_of(alloc: Global, journal: Option<Seq<LogLine>>) -> Seq<LogLine>
    ensures { result ≡ unwrap_or journal [] }
{
    match journal {
        Some(lines) => lines,
        None => Seq::new(alloc),
    }
}

/// The verdict that the ruleset gives the packet, for a caller that asks for neither lines nor steps. It takes no memory.
pub fn eval_verdict(rules: &Ruleset, packet: &Packet) -> Verdict
    requires { SoundRules rules.now }
    ensures { HasVerdict rules.now packet.now result }
{
    verdict_from::<Brand>(rules, packet, Blank::new(1))
}

fn verdict_from<L: Ledger>(rules: &Ruleset, packet: &Packet, blank: Blank) -> Verdict
    requires sound { SoundRules rules.now }
    requires name { blank.name ≡ L.name }
    requires parts { blank.parts ≡ L.parts }
    requires some { 0 < blank.parts }
    ensures { HasVerdict rules.now packet.now result }
{
    let mut steps = Steps::<L>::of(blank);
    let mut course = Course::of(packet);
    let mut journal = None;
    match evaluated(rules, packet, &mut course, &mut journal, &mut steps) {
        Ok(verdict) => verdict,
        Err(Memory) => unreachable!(),
    }
}

/// What the ruleset makes of the packet, as `eval` says, for a caller that counts no steps.
///
/// Refuses for want of memory alone, where lines are logged.
pub fn eval_uncounted(alloc: Global, rules: &Ruleset, packet: &Packet) -> Result<Outcome, Memory>
    requires { SoundRules rules.now }
    ensures { IfOk result (λ outcome. Eval rules.now packet.now outcome) }
{
    eval_from::<Brand>(alloc, rules, packet, Blank::new(1))
}

fn eval_from<L: Ledger>(
    alloc: Global,
    rules: &Ruleset,
    packet: &Packet,
    blank: Blank,
) -> Result<Outcome, Memory>
    requires sound { SoundRules rules.now }
    requires name { blank.name ≡ L.name }
    requires parts { blank.parts ≡ L.parts }
    requires some { 0 < blank.parts }
    ensures { IfOk result (λ outcome. Eval rules.now packet.now outcome) }
{
    let mut steps = Steps::<L>::of(blank);
    eval(alloc, rules, packet, &mut steps)
}
