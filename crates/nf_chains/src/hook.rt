//! The base chains at a hook.
ghost use Rattle.std.specs.Prelude.{◌≡◌, length, option_copied};
ghost use Rattle.std.specs.Option.{option_map};
ghost use Rattle.nf_sound.specs.Names.{AreByName};
ghost use Rattle.nf_chains.specs.Hooks.{first_of, is_accept, is_at, is_filter, is_new, next_at, priority, runs_before, runs_behind};
ghost use Rattle.nf_chains.specs.Runs.{Answers, is_met};
ghost use Rattle.nf_chains.specs.Scenes.{meet_all_in, meet_one_in};

use crate::course::Course;
use crate::run::run_base;
use crate::scene::Scene;
use fw_addr::{CtState, LogLine};
use fw_base::{Memory, Seq};
use fw_model::{Packet, Verdict};
use fw_steps::Steps;
use nf_rules::{Base, Chain, ChainKind, Hook};
use std::sync::ledger::Ledger;

fn is_at(wanted: Hook, base: Option<Base>) -> bool
    ensures { result ≡ is_at wanted base }
{
    match base {
        Some(base) => base.hook == wanted,
        None => false,
    }
}

fn priority(base: Option<Base>) -> i32
    ensures { result ≡ priority base }
{
    match base {
        Some(base) => base.priority,
        None => 0,
    }
}

/// Whether a base chain runs before another: that of lower priority, and of equal ones that whose name is before.
fn runs_before(one: &Chain, other: &Chain) -> bool
    ensures { result ≡ runs_before one.now other.now }
{
    let by_priority = priority(one.base).cmp(&priority(other.base));
    by_priority
        .then(one.name.as_str().cmp(other.name.as_str()))
        .is_lt()
}

fn runs_behind(last: Option<&Chain>, chain: &Chain) -> bool
    ensures { result ≡ runs_behind (option_copied last.entry) chain.now }
{
    match last {
        Some(last) => runs_before(last, chain),
        None => true,
    }
}

/// The base chain at a hook that runs next behind one.
fn next_at<'a>(chains: &'a [Chain], wanted: Hook, last: Option<&Chain>) -> Option<&'a Chain>
    ensures { option_copied result ≡ next_at wanted (option_copied last.entry) chains.now }
{
    let mut first: Option<&'a Chain> = None;
    for place in (0..chains.len()).rev() {
        let chain = &chains[place];
        if is_at(wanted, chain.base) && runs_behind(last, chain) {
            first = Some(first_of(chain, first));
        }
    }
    first
}

/// The one of two that runs first.
fn first_of<'a>(chain: &'a Chain, other: Option<&'a Chain>) -> &'a Chain
    ensures { result.now ≡ first_of chain.now (option_copied other.entry) }
{
    match other {
        Some(other) => {
            if runs_before(other, chain) {
                other
            } else {
                chain
            }
        }
        None => chain,
    }
}

/// Whether a packet with this verdict goes on.
pub fn is_accept(verdict: Verdict) -> bool
    ensures { result ≡ is_accept verdict }
{
    match verdict {
        Verdict::Accept => true,
        _ => false,
    }
}

/// Whether a base chain filters. The others translate.
fn is_filter(base: Option<Base>) -> bool
    ensures { result ≡ is_filter base }
{
    match base {
        Some(base) => base.kind == ChainKind::Filter,
        None => false,
    }
}

/// Whether a packet begins a connection.
fn is_new(packet: &Packet) -> bool
    ensures { result ≡ is_new packet.now }
{
    packet.state == CtState::New
}

/// Whether a packet meets a base chain: one that translates is met by packets that begin a connection alone.
fn is_met(packet: &Packet, base: Option<Base>) -> bool
    ensures { result ≡ is_met packet.now base }
{
    is_filter(base) || is_new(packet)
}

/// What a base chain makes of the packet, where it meets it.
fn meet_one<L: Ledger>(
    scene: &Scene<'_>,
    chain: &Chain,
    course: &mut Course,
    journal: &mut Option<Seq<LogLine>>,
    steps: &mut Steps<L>,
) -> Result<Verdict, Memory>
    requires { AreByName scene.now.rules.now }
    ensures { Answers result (meet_one_in scene.now chain.now) course.old course.new journal.old journal.new steps.old steps.new }
{
    if is_met(scene.packet, chain.base) {
        run_base(scene, chain, course, journal, steps)
    } else {
        Ok(Verdict::Accept)
    }
}

/// What the base chains at a hook make of the packet, one after another, until one refuses it.
pub fn meet_all<L: Ledger>(
    scene: &Scene<'_>,
    wanted: Hook,
    course: &mut Course,
    journal: &mut Option<Seq<LogLine>>,
    steps: &mut Steps<L>,
) -> Result<Verdict, Memory>
    requires { AreByName scene.now.rules.now }
    ensures { Answers result (meet_all_in scene.now wanted) course.old course.new journal.old journal.new steps.old steps.new }
{
    let chains = scene.rules.chains.as_slice();
    let mut last = None;
    for _left in (0..chains.len()).rev() {
        let Some(chain) = next_at(chains, wanted, last) else {
            return Ok(Verdict::Accept);
        };
        let verdict = meet_one(scene, chain, course, journal, steps)?;
        if !is_accept(verdict) {
            return Ok(verdict);
        }
        last = Some(chain);
    }
    Ok(Verdict::Accept)
}
