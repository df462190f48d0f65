//! The steps of rich rules (firewalld.richlanguage(5)).
ghost use Rattle.std.specs.Prelude.{◌≡◌, ◌∷◌, [], Bool, IfOk, OnOk, true};
ghost use Rattle.std.specs.List.{flat_map};
ghost use Rattle.fw_hits.specs.Rich.{hits_rich};
ghost use Rattle.fw_model.specs.declared.config.Config.{Config};
ghost use Rattle.fw_model.specs.declared.packet.Packet.{Packet};
ghost use Rattle.fw_order.specs.Borrowed.{lent};
ghost use Rattle.fw_valid.specs.Each.{Each};
ghost use Rattle.fw_valid.specs.Riches.{IsRich};
ghost use Rattle.fw_verdict.specs.Changes.Change.{mark, masquerade, translate};
ghost use Rattle.fw_verdict.specs.Outside.{act_items, action_items, effect_items, forward_items, log_items, masquerade_items, outside_items, placed_items, target_of};
ghost use Rattle.lower_outside.specs.Forms.{log_line};
ghost use Rattle.lower_outside.specs.Steps.{Tell, item_of, within};
ghost use Rattle.lower_zone.specs.Work.{Tells};
ghost use Rattle.nf_chains.specs.Marks.{can_translate};

use crate::steps::{Step, push_step};
use crate::targets::target_fits;
use fw_addr::{Dnat, Limit, LogKind, LogLine};
use fw_base::{Memory, Seq, TryCopy};
use fw_model::{Act, Action, Config, Element, Forward, Rich, RichLog};
use fw_verdict::{Place, rules_at};
use lower_match::rich_matches;
use lower_zone::limited;
use nf_rules::{Match, Stmt};
use std::alloc::Global;

fn log_line(alloc: Global, log: &RichLog) -> Result<LogLine, Memory>
    ensures { IfOk result (λ line. line ≡ log_line log.now) }
{
    Ok(LogLine {
        kind: LogKind::Rich,
        level: log.level,
        prefix: log.prefix.copy(alloc)?,
    })
}

/// The line of `log`, where its limit is passed.
fn push_log(
    alloc: Global,
    alternatives: &Seq<Seq<Match>>,
    rule: &Rich,
    steps: &mut Seq<Step>,
) -> Result<(), Memory>
    ensures { OnOk result ((config : Config) → Tells config alternatives.now (hits_rich config rule.now)
        → Tell config (log_items config rule.now rule.now.log) steps.old steps.new) }
{
    let Some(log) = &rule.log else {
        return Ok(());
    };
    let line = log_line(alloc, log)?;
    let within = limited(alloc, alternatives.as_slice(), log.limit)?;
    push_step(within, Stmt::Log(line), steps)
}

/// A mark, where its limit is passed.
fn push_mark(
    alloc: Global,
    alternatives: &Seq<Seq<Match>>,
    limit: Option<Limit>,
    value: u32,
    mask: u32,
    steps: &mut Seq<Step>,
) -> Result<(), Memory>
    ensures { OnOk result ((config : Config) (condition : Packet → Bool) → Tells config alternatives.now condition
        → Tell config (within condition limit (mark value mask) ∷ []) steps.old steps.new) }
{
    let within = limited(alloc, alternatives.as_slice(), limit)?;
    push_step(within, Stmt::Mark(value, mask), steps)
}

/// What an action does outside the filter: it marks.
fn push_act(
    alloc: Global,
    alternatives: &Seq<Seq<Match>>,
    limit: Option<Limit>,
    act: Act,
    steps: &mut Seq<Step>,
) -> Result<(), Memory>
    ensures { OnOk result ((config : Config) (rule : Rich) → Tells config alternatives.now (hits_rich config rule)
        → Tell config (act_items config rule limit act) steps.old steps.new) }
{
    match act {
        Act::Mark(value, mask) => push_mark(alloc, alternatives, limit, value, mask, steps),
        Act::Accept => Ok(()),
        Act::Reject(_) => Ok(()),
        Act::Drop => Ok(()),
    }
}

fn push_action(
    alloc: Global,
    alternatives: &Seq<Seq<Match>>,
    action: &Option<Action>,
    steps: &mut Seq<Step>,
) -> Result<(), Memory>
    ensures { OnOk result ((config : Config) (rule : Rich) → Tells config alternatives.now (hits_rich config rule)
        → Tell config (action_items config rule action.now) steps.old steps.new) }
{
    match action {
        Some(action) => push_act(alloc, alternatives, action.limit, action.act, steps),
        None => Ok(()),
    }
}

/// The address, the port or both to which a port is forwarded.
pub fn target_of(forward: &Forward) -> Dnat
    ensures { result ≡ target_of forward.now }
{
    Dnat {
        addr: forward.to_addr,
        port: forward.to_port,
    }
}

/// A translation to an address of the family of the packets, if to any.
pub fn push_translation(
    alternatives: Seq<Seq<Match>>,
    dnat: Dnat,
    steps: &mut Seq<Step>,
) -> Result<(), Memory>
    ensures { OnOk result ((config : Config) (condition : Packet → Bool) → Tells config alternatives condition
        → ((packet : Packet) → condition packet ≡ true → can_translate dnat packet ≡ true)
        → Tell config (item_of condition (translate dnat) ∷ []) steps.old steps.new) }
{
    target_fits(dnat);
    push_step(alternatives, Stmt::DnatTo(dnat), steps)
}

/// Leaving with the host's own address.
pub fn push_masquerade(alternatives: Seq<Seq<Match>>, steps: &mut Seq<Step>) -> Result<(), Memory>
    ensures { OnOk result ((config : Config) (condition : Packet → Bool) → Tells config alternatives condition
        → Tell config (item_of condition masquerade ∷ []) steps.old steps.new) }
{
    push_step(alternatives, Stmt::Masquerade, steps)
}

/// What an element forwards.
fn push_forward(
    alternatives: Seq<Seq<Match>>,
    element: &Option<Element>,
    steps: &mut Seq<Step>,
) -> Result<(), Memory>
    ensures { OnOk result ((config : Config) (rule : Rich) → rule.element ≡ element.now → IsRich rule → Tells config alternatives (hits_rich config rule)
        → Tell config (forward_items config rule element.now) steps.old steps.new) }
{
    match element {
        Some(Element::Forward(forward)) => {
            push_translation(alternatives, target_of(forward), steps)
        }
        _ => Ok(()),
    }
}

/// What a rule does in its place, behind its line.
fn push_effect(
    alloc: Global,
    place: Place,
    alternatives: Seq<Seq<Match>>,
    rule: &Rich,
    steps: &mut Seq<Step>,
) -> Result<(), Memory>
    ensures { OnOk result ((config : Config) → IsRich rule.now → Tells config alternatives (hits_rich config rule.now)
        → Tell config (effect_items config place rule.now) steps.old steps.new) }
{
    match place {
        Place::Marks => push_action(alloc, &alternatives, &rule.action, steps),
        Place::ForwardsBefore => push_forward(alternatives, &rule.element, steps),
        Place::ForwardsBehind => push_forward(alternatives, &rule.element, steps),
        Place::Masquerades => push_masquerade(alternatives, steps),
    }
}

/// What a rule does in its place: first its line.
fn push_rule(
    alloc: Global,
    config: &Config,
    place: Place,
    rule: &Rich,
    steps: &mut Seq<Step>,
) -> Result<(), Memory>
    ensures { OnOk result (IsRich rule.now → Tell config.now (outside_items config.now place rule.now) steps.old steps.new) }
{
    let alternatives = rich_matches(
        alloc,
        rule,
        config.services.as_slice(),
        config.ipsets.as_slice(),
    )?;
    push_log(alloc, &alternatives, rule, steps)?;
    push_effect(alloc, place, alternatives, rule, steps)
}

fn push_in_turn(
    alloc: Global,
    config: &Config,
    place: Place,
    ordered: &[&Rich],
    steps: &mut Seq<Step>,
) -> Result<(), Memory>
    ensures { OnOk result (Each IsRich (lent ordered.now) → Tell config.now (flat_map (outside_items config.now place) (lent ordered.now)) steps.old steps.new) }
{
    for rule in ordered {
        push_rule(alloc, config, place, rule, steps)?;
    }
    Ok(())
}

/// Appends what the rich rules of a place do, by priority and then in the order of the list.
///
/// Refuses for want of memory alone.
pub fn push_placed(
    alloc: Global,
    config: &Config,
    place: Place,
    rules: &[Rich],
    steps: &mut Seq<Step>,
) -> Result<(), Memory>
    ensures { OnOk result (Each IsRich rules.now → Tell config.now (placed_items config.now place rules.now) steps.old steps.new) }
{
    let ordered = rules_at(alloc, place, rules)?;
    push_in_turn(alloc, config, place, ordered.as_slice(), steps)
}
