//! Marks of packets (firewalld.richlanguage(5), `mark`).
ghost use Rattle.std.specs.Prelude.{◌≡◌, IfOk};
ghost use Rattle.std.specs.List.{flat_map};
ghost use Rattle.fw_order.specs.Borrowed.{lent};
ghost use Rattle.fw_verdict.specs.Changes.{new_mark};
ghost use Rattle.fw_verdict.specs.Led.{MarksTo, mark_by_act, mark_given};
ghost use Rattle.fw_verdict.specs.Outside.{mark_items, outside_items};
ghost use Rattle.fw_verdict.specs.Sides.{entering};
ghost use Rattle.fw_verdict.specs.declared.outside.Place.TheVariants as place;
ghost use Rattle.fw_verdict.specs.declared.sides.Side.TheVariants as side;

use crate::outside::{Place, rules_at};
use crate::rich::{log, passes};
use crate::sides::{Side, settings_beside};
use fw_addr::LogLine;
use fw_base::{Memory, Seq};
use fw_hits::{hits_rich, ingress};
use fw_model::{Act, Action, Config, Packet, Rich, Rules};
use std::alloc::Global;

/// The bits of the mask are cleared in the mark, and the value's bits turned.
fn new_mark(value: u32, mask: u32, old: u32) -> u32
    ensures { result ≡ new_mark value mask old }
{
    (old & !mask) ^ value
}

/// What an action makes of a mark, where its limit is passed.
fn mark_by_action(action: &Action, packet: &Packet, mark: u32) -> u32
    ensures { result ≡ mark_by_act packet.now action.now.limit action.now.act mark }
{
    match action.act {
        Act::Mark(value, mask) => {
            if passes(&action.limit, packet) {
                new_mark(value, mask, mark)
            } else {
                mark
            }
        }
        _ => mark,
    }
}

fn mark_by(rule: &Rich, packet: &Packet, mark: u32) -> u32
    ensures { result ≡ mark_given packet.now rule.now.action mark }
{
    match &rule.action {
        Some(action) => mark_by_action(action, packet, mark),
        None => mark,
    }
}

/// Does what a rule that marks does: logs its line, and marks the packet.
fn act(
    alloc: Global,
    config: &Config,
    rule: &Rich,
    packet: &Packet,
    mark: u32,
    logs: &mut Seq<LogLine>,
) -> Result<u32, Memory>
    ensures { IfOk result (λ marked. MarksTo (outside_items config.now place.Marks rule.now) packet.now mark marked logs.old logs.new) }
{
    if !hits_rich(alloc, config, rule, packet)? {
        return Ok(mark);
    }
    log(alloc, rule, packet, logs)?;
    Ok(mark_by(rule, packet, mark))
}

fn act_in_turn(
    alloc: Global,
    config: &Config,
    rules: &[&Rich],
    packet: &Packet,
    mark: u32,
    logs: &mut Seq<LogLine>,
) -> Result<u32, Memory>
    ensures { IfOk result (λ marked. MarksTo (flat_map (outside_items config.now place.Marks) (lent rules.now)) packet.now mark marked logs.old logs.new) }
{
    let mut marked = mark;
    for rule in rules {
        marked = act(alloc, config, rule, packet, marked, logs)?;
    }
    Ok(marked)
}

/// What the settings of a zone or a policy make of a packet's mark.
fn mark_by_settings(
    alloc: Global,
    config: &Config,
    rules: &Rules,
    packet: &Packet,
    mark: u32,
    logs: &mut Seq<LogLine>,
) -> Result<u32, Memory>
    ensures { IfOk result (λ marked. MarksTo (mark_items config.now rules.now) packet.now mark marked logs.old logs.new) }
{
    let ordered = rules_at(alloc, Place::Marks, rules.rich.as_slice())?;
    act_in_turn(alloc, config, ordered.as_slice(), packet, mark, logs)
}

fn mark_in_turn(
    alloc: Global,
    config: &Config,
    settings: &[&Rules],
    packet: &Packet,
    mark: u32,
    logs: &mut Seq<LogLine>,
) -> Result<u32, Memory>
    ensures { IfOk result (λ marked. MarksTo (flat_map (mark_items config.now) (lent settings.now)) packet.now mark marked logs.old logs.new) }
{
    let mut marked = mark;
    for rules in settings {
        marked = mark_by_settings(alloc, config, rules, packet, marked, logs)?;
    }
    Ok(marked)
}

/// The mark of a packet that came by an interface, behind all rules that mark it: those of the policies from its zone to any, and
/// those of the zone. The lines that are logged come behind those that are there.
///
/// Refuses for want of memory alone.
pub fn marked(
    alloc: Global,
    config: &Config,
    packet: &Packet,
    logs: &mut Seq<LogLine>,
) -> Result<u32, Memory>
    ensures { IfOk result (λ marked. MarksTo (entering config.now side.Marked packet.now) packet.now packet.now.mark marked logs.old logs.new) }
{
    let zone = ingress(config, packet);
    let settings = settings_beside(alloc, config, Side::Marked, zone)?;
    mark_in_turn(
        alloc,
        config,
        settings.as_slice(),
        packet,
        packet.mark,
        logs,
    )
}
