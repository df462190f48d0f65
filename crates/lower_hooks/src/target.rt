//! What the targets of zones do, behind lines of what they deny.
ghost use Rattle.std.specs.Prelude.{◌≡◌, ◌++◌, [], OnOk};
ghost use Rattle.lower_hooks.specs.Listed.{target_line, target_rules};
ghost use Rattle.lower_hooks.specs.Rules.{denial_rules};

use crate::denied::push_denial;
use crate::names::zone_prefix;
use crate::rules::push_always;
use fw_base::{Memory, Seq, Text};
use fw_model::{Config, LogDenied, Zone, ZoneTarget};
use fw_verdict::target_forwarded;
use nf_rules::Rule;
use std::alloc::Global;

/// Appends the line before a denial of any packet, by what it begins with.
fn push_told(
    alloc: Global,
    told: LogDenied,
    prefix: &str,
    rules: &mut Seq<Rule>,
) -> Result<(), Memory>
    ensures { OnOk result (rules.new ≡ rules.old ++ denial_rules [] told prefix.now) }
{
    let prefix = Text::of(alloc, prefix)?;
    push_denial(alloc, told, Seq::new(alloc), prefix, rules)
}

/// Appends the line of a zone before it denies a packet: what stands before the zone's name, the name, and what was done.
fn push_named(
    alloc: Global,
    told: LogDenied,
    front: &str,
    zone: &Text,
    end: &str,
    rules: &mut Seq<Rule>,
) -> Result<(), Memory>
    ensures { OnOk result (rules.new ≡ rules.old ++ denial_rules [] told (front.now ++ zone.now ++ end.now)) }
{
    let prefix = zone_prefix(alloc, front, zone, end)?;
    push_denial(alloc, told, Seq::new(alloc), prefix, rules)
}

/// Appends the line before what a zone's target denies, where denied packets are told of.
fn push_line(
    alloc: Global,
    config: &Config,
    front: &str,
    zone: &Zone,
    rules: &mut Seq<Rule>,
) -> Result<(), Memory>
    ensures { OnOk result (rules.new ≡ rules.old ++ target_line config.now front.now zone.now.name zone.now.target) }
{
    let told = config.log_denied;
    match zone.target {
        ZoneTarget::Accept => Ok(()),
        ZoneTarget::Drop => push_named(alloc, told, front, &zone.name, "_DROP: ", rules),
        ZoneTarget::Reject => push_named(alloc, told, front, &zone.name, "_REJECT: ", rules),
        ZoneTarget::Default => push_told(alloc, told, "FINAL_REJECT: ", rules),
    }
}

/// Appends what the target of a zone does with what nothing else decided (firewalld.zone(5), `target`), behind the line of what it
/// denies.
pub fn push_target(
    alloc: Global,
    config: &Config,
    front: &str,
    zone: &Zone,
    rules: &mut Seq<Rule>,
) -> Result<(), Memory>
    ensures { OnOk result (rules.new ≡ rules.old ++ target_rules config.now front.now zone.now) }
{
    push_line(alloc, config, front, zone, rules)?;
    push_always(alloc, target_forwarded(zone.target), rules)
}
