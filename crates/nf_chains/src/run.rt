//! The way of a packet through the rules of a chain and the chains that it leads to.
ghost use Rattle.std.specs.Prelude.{◌≡◌, option_copied};
ghost use Rattle.nf_sound.specs.Names.{AreByName};
ghost use Rattle.nf_chains.specs.Runs.{Answers, after_jump, giving, leading, one_rule, run_statements};
ghost use Rattle.nf_chains.specs.Scenes.{act_in, calls_in, holds_in, run_base_in, run_in};

use crate::course::Course;
use crate::effect::{can_translate, mark, masquerade, reject, translate};
use crate::flow::{Flow, Next};
use crate::journal::note;
use crate::map::{led_dst, led_in, led_out, led_src};
use crate::scene::Scene;
use crate::test::all_hold;
use fw_addr::LogLine;
use fw_base::{Memory, Seq};
use fw_model::Verdict;
use fw_steps::Steps;
use nf_rules::{Chain, Rule, Stmt};
use nf_sound::{MAX_LINKS, chain_called};
use std::sync::ledger::Ledger;

/// What the base chain makes of the packet.
pub fn run_base<L: Ledger>(
    scene: &Scene<'_>,
    chain: &Chain,
    course: &mut Course,
    journal: &mut Option<Seq<LogLine>>,
    steps: &mut Steps<L>,
) -> Result<Verdict, Memory>
    requires { AreByName scene.now.rules.now }
    ensures { Answers result (run_base_in scene.now chain.now) course.old course.new journal.old journal.new steps.old steps.new }
{
    match run(
        scene,
        chain.rules.as_slice(),
        MAX_LINKS,
        course,
        journal,
        steps,
    )? {
        Flow::Back => Ok(Verdict::Accept),
        Flow::Ended(verdict) => Ok(verdict),
    }
}

/// A run through rules, with so many links left.
#[cycle(run)]
fn run<L: Ledger>(
    scene: &Scene<'_>,
    list: &[Rule],
    links: u8,
    course: &mut Course,
    journal: &mut Option<Seq<LogLine>>,
    steps: &mut Steps<L>,
) -> Result<Flow, Memory>
    requires { AreByName scene.now.rules.now }
    ensures { Answers result (run_in scene.now links list.now) course.old course.new journal.old journal.new steps.old steps.new }
{
    for rule in list {
        if let Some(flow) = one_rule(scene, rule, links, course, journal, steps)? {
            return Ok(flow);
        }
    }
    Ok(Flow::Back)
}

/// A rule, which is a step. None: the next one goes on.
#[cycle(run)]
fn one_rule<L: Ledger>(
    scene: &Scene<'_>,
    rule: &Rule,
    links: u8,
    course: &mut Course,
    journal: &mut Option<Seq<LogLine>>,
    steps: &mut Steps<L>,
) -> Result<Option<Flow>, Memory>
    requires { AreByName scene.now.rules.now }
    ensures { Answers result (one_rule (holds_in scene.now) (act_in scene.now links) rule.now)
        course.old course.new journal.old journal.new steps.old steps.new }
{
    steps.tick();
    if all_hold(scene, course, rule.matches.as_slice()) {
        run_statements(scene, rule.stmts.as_slice(), links, course, journal, steps)
    } else {
        Ok(None)
    }
}

/// The statements of a rule, one after another, until one decides. None: the next rule goes on.
#[cycle(run)]
fn run_statements<L: Ledger>(
    scene: &Scene<'_>,
    statements: &[Stmt],
    links: u8,
    course: &mut Course,
    journal: &mut Option<Seq<LogLine>>,
    steps: &mut Steps<L>,
) -> Result<Option<Flow>, Memory>
    requires { AreByName scene.now.rules.now }
    ensures { Answers result (run_statements (act_in scene.now links) statements.now)
        course.old course.new journal.old journal.new steps.old steps.new }
{
    for statement in statements {
        match act(scene, statement, links, course, journal, steps)? {
            Next::Statement => {}
            Next::Rule => return Ok(None),
            Next::Over(flow) => return Ok(Some(flow)),
        }
    }
    Ok(None)
}

/// What a statement does.
#[cycle(run)]
fn act<L: Ledger>(
    scene: &Scene<'_>,
    statement: &Stmt,
    links: u8,
    course: &mut Course,
    journal: &mut Option<Seq<LogLine>>,
    steps: &mut Steps<L>,
) -> Result<Next, Memory>
    requires { AreByName scene.now.rules.now }
    ensures { Answers result (act_in scene.now links statement.now)
        course.old course.new journal.old journal.new steps.old steps.new }
{
    match statement {
        Stmt::Accept => Ok(Next::Over(Flow::Ended(Verdict::Accept))),
        Stmt::Drop => Ok(Next::Over(Flow::Ended(Verdict::Drop))),
        Stmt::Reject(kind) => Ok(reject(*kind, scene.packet)),
        Stmt::Return => Ok(Next::Over(Flow::Back)),
        Stmt::Log(line) => {
            note(journal, line)?;
            Ok(Next::Statement)
        }
        Stmt::Mark(value, mask) => {
            mark(course, *value, *mask);
            Ok(Next::Statement)
        }
        Stmt::DnatTo(dnat) => {
            if can_translate(dnat, scene.packet) {
                translate(course, dnat);
                Ok(Next::Over(Flow::Ended(Verdict::Accept)))
            } else {
                Ok(Next::Statement)
            }
        }
        Stmt::Masquerade => {
            masquerade(course);
            Ok(Next::Over(Flow::Ended(Verdict::Accept)))
        }
        Stmt::Jump(name) => jump(scene, name.as_str(), links, course, journal, steps),
        Stmt::Goto(name) => lead(scene, Some(name.as_str()), links, course, journal, steps),
        Stmt::VmapIn(map) => {
            let name = led_in(scene, map.as_str());
            lead(scene, name, links, course, journal, steps)
        }
        Stmt::VmapOut(map) => {
            let name = led_out(scene, map.as_str());
            lead(scene, name, links, course, journal, steps)
        }
        Stmt::VmapSrc(map) => {
            let name = led_src(scene, map.as_str());
            lead(scene, name, links, course, journal, steps)
        }
        Stmt::VmapDst(map) => {
            let name = led_dst(scene, course, map.as_str());
            lead(scene, name, links, course, journal, steps)
        }
    }
}

/// To a chain, and behind it on with the next rule.
#[cycle(run)]
fn jump<L: Ledger>(
    scene: &Scene<'_>,
    name: &str,
    links: u8,
    course: &mut Course,
    journal: &mut Option<Seq<LogLine>>,
    steps: &mut Steps<L>,
) -> Result<Next, Memory>
    requires { AreByName scene.now.rules.now }
    ensures { Answers result (giving after_jump (calls_in scene.now links name.now))
        course.old course.new journal.old journal.new steps.old steps.new }
{
    match call(scene, name, links, course, journal, steps)? {
        Flow::Back => Ok(Next::Rule),
        ended => Ok(Next::Over(ended)),
    }
}

/// To the chain of a name for good, or on with the next statement where there's no name.
#[cycle(run)]
fn lead<L: Ledger>(
    scene: &Scene<'_>,
    name: Option<&str>,
    links: u8,
    course: &mut Course,
    journal: &mut Option<Seq<LogLine>>,
    steps: &mut Steps<L>,
) -> Result<Next, Memory>
    requires { AreByName scene.now.rules.now }
    ensures { Answers result (leading (calls_in scene.now links) (option_copied name.entry))
        course.old course.new journal.old journal.new steps.old steps.new }
{
    match name {
        Some(name) => Ok(Next::Over(call(scene, name, links, course, journal, steps)?)),
        None => Ok(Next::Statement),
    }
}

/// The chain of a name, by a link.
#[cycle(run)]
fn call<L: Ledger>(
    scene: &Scene<'_>,
    name: &str,
    links: u8,
    course: &mut Course,
    journal: &mut Option<Seq<LogLine>>,
    steps: &mut Steps<L>,
) -> Result<Flow, Memory>
    requires { AreByName scene.now.rules.now }
    ensures { Answers result (calls_in scene.now links name.now)
        course.old course.new journal.old journal.new steps.old steps.new }
{
    if links == 0 {
        return Ok(Flow::Back);
    }
    match chain_called(scene.rules.chains.as_slice(), name) {
        Some(chain) => run(
            scene,
            chain.rules.as_slice(),
            links - 1,
            course,
            journal,
            steps,
        ),
        None => Ok(Flow::Back),
    }
}
