//! The hooks that a packet meets, one after another.
ghost use Rattle.std.specs.Prelude.{◌≡◌, None, option_copied, unwrap_or};
ghost use Rattle.std.specs.List.{find};
ghost use Rattle.fw_addr.specs.Subnets.{in_net};
ghost use Rattle.fw_model.specs.declared.packet.Via.TheVariants as via;
ghost use Rattle.nf_sound.specs.Names.{AreByName};
ghost use Rattle.nf_chains.specs.Courses.{now_is, routed_now};
ghost use Rattle.nf_chains.specs.Hooks.{route, sends_to};
ghost use Rattle.nf_chains.specs.Runs.{Answers, behind_host, behind_link, by_route, evaluated, meet_all, pass_on};

use crate::course::Course;
use crate::hook::{is_accept, meet_all};
use crate::scene::Scene;
use fw_addr::{Addr, LogLine, Net};
use fw_base::{Memory, Seq};
use fw_model::{Origin, Packet, Verdict, Via};
use fw_steps::Steps;
use nf_rules::{Hook, Ruleset};
use std::sync::ledger::Ledger;

/// The first route whose net holds the packet's destination as it is now.
fn first_route<'a>(packet: &'a Packet, dst: &Addr) -> Option<&'a (Net, Via)>
    ensures { option_copied result ≡ find (λ entry. in_net entry.0 dst.now) packet.now.routes }
{
    packet
        .routes
        .as_slice()
        .iter()
        .find(|entry| entry.0.contains(dst))
}

/// Where that leads. None: no route does.
fn route<'a>(packet: &'a Packet, course: &Course) -> Option<&'a Via>
    ensures { unwrap_or (option_copied result) via.Local ≡ route (now_is packet.now course.now) }
{
    match first_route(packet, &course.parts.dst) {
        Some(entry) => Some(&entry.1),
        None => None,
    }
}

/// Where a packet goes behind a translation to an address, or to none, which sends it to the host.
fn route_to<'a>(packet: &'a Packet, course: &Course, address: Option<Addr>) -> Option<&'a Via>
    ensures { unwrap_or (option_copied result) via.Local ≡ sends_to address (route (now_is packet.now course.now)) }
{
    match address {
        Some(_) => route(packet, course),
        None => None,
    }
}

/// Where a packet goes as it is now. None: to the host.
fn routed<'a>(packet: &'a Packet, course: &Course) -> Option<&'a Via>
    ensures { unwrap_or (option_copied result) via.Local ≡ routed_now packet.now course.now }
{
    match course.translation {
        Some(dnat) => route_to(packet, course, dnat.addr),
        None => route(packet, course),
    }
}

/// What the hooks that the packet meets make of it.
pub fn evaluated<L: Ledger>(
    rules: &Ruleset,
    packet: &Packet,
    course: &mut Course,
    journal: &mut Option<Seq<LogLine>>,
    steps: &mut Steps<L>,
) -> Result<Verdict, Memory>
    requires { AreByName rules.now }
    ensures { Answers result (evaluated rules.now packet.now packet.now.origin)
        course.old course.new journal.old journal.new steps.old steps.new }
{
    match &packet.origin {
        Origin::Host => behind_host(rules, packet, course, journal, steps),
        Origin::Link(_) => {
            let verdict = meet_at(rules, packet, Hook::Prerouting, course, journal, steps)?;
            if is_accept(verdict) {
                behind_link(rules, packet, course, journal, steps)
            } else {
                Ok(verdict)
            }
        }
    }
}

/// What the host sends, behind routing.
fn behind_host<L: Ledger>(
    rules: &Ruleset,
    packet: &Packet,
    course: &mut Course,
    journal: &mut Option<Seq<LogLine>>,
    steps: &mut Steps<L>,
) -> Result<Verdict, Memory>
    requires { AreByName rules.now }
    ensures { Answers result (by_route packet.now (behind_host rules.now packet.now))
        course.old course.new journal.old journal.new steps.old steps.new }
{
    let name = match routed(packet, course) {
        Some(Via::Link(name)) => name.as_str(),
        _ => "lo",
    };
    pass_on(rules, packet, Hook::Output, name, course, journal, steps)
}

/// What comes by a link, behind routing.
fn behind_link<L: Ledger>(
    rules: &Ruleset,
    packet: &Packet,
    course: &mut Course,
    journal: &mut Option<Seq<LogLine>>,
    steps: &mut Steps<L>,
) -> Result<Verdict, Memory>
    requires { AreByName rules.now }
    ensures { Answers result (by_route packet.now (behind_link rules.now packet.now))
        course.old course.new journal.old journal.new steps.old steps.new }
{
    match routed(packet, course) {
        Some(Via::Link(name)) => pass_on(
            rules,
            packet,
            Hook::Forward,
            name.as_str(),
            course,
            journal,
            steps,
        ),
        _ => meet_at(rules, packet, Hook::Input, course, journal, steps),
    }
}

/// A hook at which no interface is known by which the packet leaves.
fn meet_at<'a, L: Ledger>(
    rules: &'a Ruleset,
    packet: &'a Packet,
    hook: Hook,
    course: &mut Course,
    journal: &mut Option<Seq<LogLine>>,
    steps: &mut Steps<L>,
) -> Result<Verdict, Memory>
    requires { AreByName rules.now }
    ensures { Answers result (meet_all rules.now None packet.now hook)
        course.old course.new journal.old journal.new steps.old steps.new }
{
    let scene = Scene {
        rules,
        leaving: None,
        packet,
    };
    meet_all(&scene, hook, course, journal, steps)
}

/// A hook, and then postrouting, by the interface of a name.
fn pass_on<'a, L: Ledger>(
    rules: &'a Ruleset,
    packet: &'a Packet,
    first: Hook,
    name: &'a str,
    course: &mut Course,
    journal: &mut Option<Seq<LogLine>>,
    steps: &mut Steps<L>,
) -> Result<Verdict, Memory>
    requires { AreByName rules.now }
    ensures { Answers result (pass_on rules.now packet.now first name.now)
        course.old course.new journal.old journal.new steps.old steps.new }
{
    let scene = Scene {
        rules,
        leaving: Some(name),
        packet,
    };
    let verdict = meet_all(&scene, first, course, journal, steps)?;
    if is_accept(verdict) {
        meet_all(&scene, Hook::Postrouting, course, journal, steps)
    } else {
        Ok(verdict)
    }
}
