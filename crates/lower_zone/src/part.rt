//! Rich rules, part by part.
ghost use Rattle.std.specs.Prelude.{◌≡◌, List, [], ◌∷◌, Bool, IfOk, OnOk, ℕ};
ghost use Rattle.std.specs.List.{flat_map};
ghost use Rattle.fw_hits.specs.Rich.{hits_rich};
ghost use Rattle.fw_model.specs.declared.config.Config.{Config};
ghost use Rattle.fw_model.specs.declared.packet.Packet.{Packet};
ghost use Rattle.fw_model.specs.declared.rich.Rich.{Rich};
ghost use Rattle.fw_order.specs.Borrowed.{lent};
ghost use Rattle.fw_verdict.specs.Rich.{acted, acted_as, audit_line, audited, audited_as, blocked, blocks_icmp, lines, logged, rich_items, rule_items};
ghost use Rattle.fw_verdict.specs.Walk.{walk};
ghost use Rattle.nf_rules.specs.declared.chain.Chain.{Chain};
ghost use Rattle.lower_zone.specs.Verdicts.{line_within, log_line, verdict_of};
ghost use Rattle.lower_zone.specs.Work.{AreNamed, Adds, Tells};

use crate::lines::push_line;
use crate::rules::{limited, push_decision};
use fw_addr::{Level, Limit, LogKind, LogLine};
use fw_base::{Memory, Seq, Text, TryCopy};
use fw_model::{Act, Config, Element, Rich, RichLog, Rules, Verdict};
use fw_verdict::{Part, REJECT, audit_name, blocks_icmp, reject_type, rules_in};
use lower_match::rich_matches;
use nf_rules::{Chain, Match, Rule};
use std::alloc::Global;

fn log_line(alloc: Global, log: &RichLog) -> Result<LogLine, Memory>
    ensures { IfOk result (λ line. line ≡ log_line log.now) }
{
    Ok(LogLine {
        kind: LogKind::Rich,
        level: log.level,
        prefix: log.prefix.copy(alloc)?,
    })
}

fn audit_line(alloc: Global, name: &str) -> Result<LogLine, Memory>
    ensures { IfOk result (λ line. line ≡ audit_line name.now) }
{
    Ok(LogLine {
        kind: LogKind::Audit,
        level: Level::Notice,
        prefix: Text::of(alloc, name)?,
    })
}

/// A line for the packets that are told in alternatives and within a limit.
fn push_within(
    alloc: Global,
    block: &Text,
    alternatives: &Seq<Seq<Match>>,
    limit: Option<Limit>,
    line: LogLine,
    rules: &mut Seq<Rule>,
    chains: &mut Seq<Chain>,
) -> Result<(), Memory>
    ensures adds { OnOk result ((config : Config) (condition : Packet → Bool) → Tells config alternatives.now condition
        → Adds config (walk (line_within condition limit line ∷ [])) rules.old rules.new chains.old chains.new) }
    ensures names { OnOk result ((parts : ℕ) → AreNamed block.now parts chains.old → AreNamed block.now parts chains.new) }
{
    let within = limited(alloc, alternatives.as_slice(), limit)?;
    push_line(alloc, block, within, line, rules, chains)
}

/// The line of `log`, where its limit is passed.
fn push_log(
    alloc: Global,
    block: &Text,
    alternatives: &Seq<Seq<Match>>,
    rule: &Rich,
    rules: &mut Seq<Rule>,
    chains: &mut Seq<Chain>,
) -> Result<(), Memory>
    ensures adds { OnOk result ((config : Config) → Tells config alternatives.now (hits_rich config rule.now)
        → Adds config (walk (logged config rule.now rule.now.log)) rules.old rules.new chains.old chains.new) }
    ensures names { OnOk result ((parts : ℕ) → AreNamed block.now parts chains.old → AreNamed block.now parts chains.new) }
{
    let Some(log) = &rule.log else {
        return Ok(());
    };
    let line = log_line(alloc, log)?;
    push_within(alloc, block, alternatives, log.limit, line, rules, chains)
}

/// The line of an audit of an action, where its limit is passed. A mark has none.
fn push_audit_of(
    alloc: Global,
    block: &Text,
    alternatives: &Seq<Seq<Match>>,
    limit: Option<Limit>,
    act: Act,
    rules: &mut Seq<Rule>,
    chains: &mut Seq<Chain>,
) -> Result<(), Memory>
    ensures adds { OnOk result ((config : Config) (rule : Rich) → Tells config alternatives.now (hits_rich config rule)
        → Adds config (walk (audited_as config rule limit act)) rules.old rules.new chains.old chains.new) }
    ensures names { OnOk result ((parts : ℕ) → AreNamed block.now parts chains.old → AreNamed block.now parts chains.new) }
{
    let Some(name) = audit_name(act) else {
        return Ok(());
    };
    let line = audit_line(alloc, name)?;
    push_within(alloc, block, alternatives, limit, line, rules, chains)
}

/// The line of `audit`.
fn push_audit(
    alloc: Global,
    block: &Text,
    alternatives: &Seq<Seq<Match>>,
    rule: &Rich,
    rules: &mut Seq<Rule>,
    chains: &mut Seq<Chain>,
) -> Result<(), Memory>
    ensures adds { OnOk result ((config : Config) → Tells config alternatives.now (hits_rich config rule.now)
        → Adds config (walk (audited config rule.now rule.now.audit rule.now.action)) rules.old rules.new chains.old chains.new) }
    ensures names { OnOk result ((parts : ℕ) → AreNamed block.now parts chains.old → AreNamed block.now parts chains.new) }
{
    let Some(limit) = rule.audit else {
        return Ok(());
    };
    let Some(action) = rule.action else {
        return Ok(());
    };
    push_audit_of(alloc, block, alternatives, limit, action.act, rules, chains)
}

/// The lines of a rule: that of `log`, and then that of `audit`.
fn push_lines(
    alloc: Global,
    block: &Text,
    alternatives: &Seq<Seq<Match>>,
    rule: &Rich,
    rules: &mut Seq<Rule>,
    chains: &mut Seq<Chain>,
) -> Result<(), Memory>
    ensures adds { OnOk result ((config : Config) → Tells config alternatives.now (hits_rich config rule.now)
        → Adds config (walk (lines config rule.now)) rules.old rules.new chains.old chains.new) }
    ensures names { OnOk result ((parts : ℕ) → AreNamed block.now parts chains.old → AreNamed block.now parts chains.new) }
{
    push_log(alloc, block, alternatives, rule, rules, chains)?;
    push_audit(alloc, block, alternatives, rule, rules, chains)
}

fn verdict_of(act: Act) -> Option<Verdict>
    ensures { result ≡ verdict_of act }
{
    match act {
        Act::Accept => Some(Verdict::Accept),
        Act::Reject(kind) => Some(Verdict::Reject(reject_type(kind))),
        Act::Drop => Some(Verdict::Drop),
        Act::Mark(_, _) => None,
    }
}

/// What an action decides, where its limit is passed. A mark decides nothing.
fn push_act(
    alloc: Global,
    alternatives: &Seq<Seq<Match>>,
    limit: Option<Limit>,
    act: Act,
    rules: &mut Seq<Rule>,
) -> Result<(), Memory>
    ensures { OnOk result ((config : Config) (rule : Rich) (chains : List Chain) → Tells config alternatives.now (hits_rich config rule)
        → Adds config (walk (acted_as config rule limit act)) rules.old rules.new chains chains) }
{
    let Some(verdict) = verdict_of(act) else {
        return Ok(());
    };
    let within = limited(alloc, alternatives.as_slice(), limit)?;
    push_decision(alloc, within, verdict, rules)
}

/// What an element decides without an action.
fn push_element(
    alloc: Global,
    alternatives: Seq<Seq<Match>>,
    element: &Option<Element>,
    rules: &mut Seq<Rule>,
) -> Result<(), Memory>
    ensures { OnOk result ((config : Config) (rule : Rich) (chains : List Chain) → Tells config alternatives (hits_rich config rule)
        → Adds config (walk (blocked config rule (blocks_icmp element.now))) rules.old rules.new chains chains) }
{
    if blocks_icmp(element) {
        push_decision(alloc, alternatives, REJECT, rules)
    } else {
        Ok(())
    }
}

/// What a rule decides: by its action, or without one by its element.
fn push_action(
    alloc: Global,
    alternatives: Seq<Seq<Match>>,
    rule: &Rich,
    rules: &mut Seq<Rule>,
) -> Result<(), Memory>
    ensures { OnOk result ((config : Config) (chains : List Chain) → Tells config alternatives (hits_rich config rule.now)
        → Adds config (walk (acted config rule.now rule.now.action)) rules.old rules.new chains chains) }
{
    match rule.action {
        Some(action) => push_act(alloc, &alternatives, action.limit, action.act, rules),
        None => push_element(alloc, alternatives, &rule.element, rules),
    }
}

/// What a rule does in a part.
fn push_rule(
    alloc: Global,
    config: &Config,
    block: &Text,
    part: Part,
    rule: &Rich,
    rules: &mut Seq<Rule>,
    chains: &mut Seq<Chain>,
) -> Result<(), Memory>
    ensures adds { OnOk result (Adds config.now (walk (rule_items config.now part rule.now)) rules.old rules.new chains.old chains.new) }
    ensures names { OnOk result ((parts : ℕ) → AreNamed block.now parts chains.old → AreNamed block.now parts chains.new) }
{
    let alternatives = rich_matches(
        alloc,
        rule,
        config.services.as_slice(),
        config.ipsets.as_slice(),
    )?;
    match part {
        Part::Log => push_lines(alloc, block, &alternatives, rule, rules, chains),
        Part::Deny => push_action(alloc, alternatives, rule, rules),
        Part::Allow => push_action(alloc, alternatives, rule, rules),
        Part::Pre => {
            push_lines(alloc, block, &alternatives, rule, rules, chains)?;
            push_action(alloc, alternatives, rule, rules)
        }
        Part::Post => {
            push_lines(alloc, block, &alternatives, rule, rules, chains)?;
            push_action(alloc, alternatives, rule, rules)
        }
    }
}

/// Appends what the rich rules of a part do (firewalld.richlanguage(5)), by priority and then in the order of the list.
///
/// Refuses for want of memory alone.
pub fn push_rich(
    alloc: Global,
    config: &Config,
    block: &Text,
    part: Part,
    settings: &Rules,
    rules: &mut Seq<Rule>,
    chains: &mut Seq<Chain>,
) -> Result<(), Memory>
    ensures adds { OnOk result (Adds config.now (walk (rich_items config.now part settings.now.rich)) rules.old rules.new chains.old chains.new) }
    ensures names { OnOk result ((parts : ℕ) → AreNamed block.now parts chains.old → AreNamed block.now parts chains.new) }
{
    let ordered = rules_in(alloc, part, settings.rich.as_slice())?;
    push_in_turn(
        alloc,
        config,
        block,
        part,
        ordered.as_slice(),
        rules,
        chains,
    )
}

fn push_in_turn(
    alloc: Global,
    config: &Config,
    block: &Text,
    part: Part,
    ordered: &[&Rich],
    rules: &mut Seq<Rule>,
    chains: &mut Seq<Chain>,
) -> Result<(), Memory>
    ensures adds { OnOk result (Adds config.now (walk (flat_map (rule_items config.now part) (lent ordered.now))) rules.old rules.new chains.old chains.new) }
    ensures names { OnOk result ((parts : ℕ) → AreNamed block.now parts chains.old → AreNamed block.now parts chains.new) }
{
    for rule in ordered {
        push_rule(alloc, config, block, part, rule, rules, chains)?;
    }
    Ok(())
}
