//! Masquerade: packets leave with the host's own address (firewalld.zone(5) and firewalld.richlanguage(5), `masquerade`).
ghost use Rattle.std.specs.Prelude.{◌≡◌, IfOk, List};
ghost use Rattle.std.specs.List.{flat_map};
ghost use Rattle.fw_addr.specs.declared.log.LogLine.{LogLine};
ghost use Rattle.fw_model.specs.declared.config.Config.{Config};
ghost use Rattle.fw_order.specs.Borrowed.{lent};
ghost use Rattle.fw_verdict.specs.Led.{MasksTo};
ghost use Rattle.fw_verdict.specs.Outside.{leaving_items, outside_items, placed_items, plain_items};
ghost use Rattle.fw_verdict.specs.Sides.{leaving_by};
ghost use Rattle.fw_verdict.specs.declared.outside.Place.TheVariants as place;

use crate::outside::{Place, rules_at};
use crate::rich::log;
use crate::sides::{Side, settings_beside};
use crate::translation::is_ipv4;
use fw_addr::LogLine;
use fw_base::{Memory, Seq};
use fw_hits::{egress, hits_rich};
use fw_model::{Config, Packet, Rich, Rules};
use std::alloc::Global;

/// Does what a rule that masquerades does, and says whether it is about the packet.
fn act(
    alloc: Global,
    config: &Config,
    rule: &Rich,
    packet: &Packet,
    logs: &mut Seq<LogLine>,
) -> Result<bool, Memory>
    ensures { IfOk result (λ found. MasksTo (outside_items config.now place.Masquerades rule.now) packet.now logs.old logs.new found) }
{
    if !hits_rich(alloc, config, rule, packet)? {
        return Ok(false);
    }
    log(alloc, rule, packet, logs)?;
    Ok(true)
}

fn act_in_turn(
    alloc: Global,
    config: &Config,
    rules: &[&Rich],
    packet: &Packet,
    logs: &mut Seq<LogLine>,
) -> Result<bool, Memory>
    ensures { IfOk result (λ found. MasksTo (flat_map (outside_items config.now place.Masquerades) (lent rules.now)) packet.now logs.old logs.new found) }
{
    for rule in rules {
        let found = act(alloc, config, rule, packet, logs)?;
        if found {
            return Ok(true);
        }
    }
    Ok(false)
}

/// Whether the rich rules of settings masquerade a packet.
fn masks_by_rules(
    alloc: Global,
    config: &Config,
    rules: &Rules,
    packet: &Packet,
    logs: &mut Seq<LogLine>,
) -> Result<bool, Memory>
    ensures { IfOk result (λ found. MasksTo (placed_items config.now place.Masquerades rules.now.rich) packet.now logs.old logs.new found) }
{
    let ordered = rules_at(alloc, Place::Masquerades, rules.rich.as_slice())?;
    act_in_turn(alloc, config, ordered.as_slice(), packet, logs)
}

/// Whether masquerade that is no rich rule is about a packet: it is for IPv4 alone.
fn masks_plainly(rules: &Rules, packet: &Packet) -> bool
    ensures { (config : Config) (logs : List LogLine) → MasksTo (plain_items config rules.now.masquerade) packet.now logs logs result }
{
    rules.masquerade && is_ipv4(packet)
}

/// Whether the settings of a zone or a policy masquerade a packet: by rich rules, and then plainly.
fn masks(
    alloc: Global,
    config: &Config,
    rules: &Rules,
    packet: &Packet,
    logs: &mut Seq<LogLine>,
) -> Result<bool, Memory>
    ensures { IfOk result (λ found. MasksTo (leaving_items config.now rules.now) packet.now logs.old logs.new found) }
{
    let found = masks_by_rules(alloc, config, rules, packet, logs)?;
    if found {
        return Ok(true);
    }
    Ok(masks_plainly(rules, packet))
}

fn masks_in_turn(
    alloc: Global,
    config: &Config,
    settings: &[&Rules],
    packet: &Packet,
    logs: &mut Seq<LogLine>,
) -> Result<bool, Memory>
    ensures { IfOk result (λ found. MasksTo (flat_map (leaving_items config.now) (lent settings.now)) packet.now logs.old logs.new found) }
{
    for rules in settings {
        let found = masks(alloc, config, rules, packet, logs)?;
        if found {
            return Ok(true);
        }
    }
    Ok(false)
}

/// Whether a packet that leaves by an interface does so with the host's own address: by the settings of the policies to the zone that
/// it goes to, and by those of the zone. The lines that are logged come behind those that are there.
///
/// Refuses for want of memory alone.
pub fn masquerades(
    alloc: Global,
    config: &Config,
    packet: &Packet,
    name: &str,
    logs: &mut Seq<LogLine>,
) -> Result<bool, Memory>
    ensures { IfOk result (λ found. MasksTo (leaving_by config.now packet.now name.now) packet.now logs.old logs.new found) }
{
    let zone = egress(config, packet, name);
    let settings = settings_beside(alloc, config, Side::Leaving, zone)?;
    masks_in_turn(alloc, config, settings.as_slice(), packet, logs)
}
