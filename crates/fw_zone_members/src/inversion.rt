//! Members on the inversion of a zone's ICMP blocks.
ghost use Rattle.std.specs.Prelude.{◌≡◌, [], ◌∷◌, IfOk, OnErr};
ghost use Rattle.fw_act.specs.Acts.{Acts};
ghost use Rattle.fw_calls.specs.declared.reply.Reply.TheVariants as reply;
ghost use Rattle.fw_calls.specs.declared.signal.Arg.TheVariants as argument;
ghost use Rattle.fw_zone_members.specs.Inversion.{inversion_member};

use super::edits::invert_at;
use super::reading::find_zone;
use super::told::told_of;
use fw_act::{Answer, Stop, replied, require};
use fw_base::{Memory, Seq, Text};
use fw_calls::{Arg, Reply, Signal, SignalKind, Verb};
use fw_model::Code;
use fw_settings::Settings;
use std::alloc::Global;

const SUBJECT: &str = "icmp-block-inversion";

/// `addIcmpBlockInversion`, `removeIcmpBlockInversion`, `queryIcmpBlockInversion`.
///
/// Refuses an unknown zone, and an inversion that is there already or isn't there; nothing changes then. An empty zone is the default
/// zone.
pub fn inversion_member(
    alloc: Global,
    settings: &mut Settings,
    verb: Verb,
    zone: &str,
) -> Result<Answer, Stop>
    ensures acts { Acts settings.new result (inversion_member settings.old verb zone.now) }
    ensures err { OnErr result (settings.new ≡ settings.old) }
{
    match verb {
        Verb::Add => add_inversion(alloc, settings, zone),
        Verb::Remove => remove_inversion(alloc, settings, zone),
        Verb::Query => query_inversion(alloc, settings, zone),
    }
}

#[tactic(auto, unfolding(crate::specs::Inversion::inversion_member))]
fn add_inversion(alloc: Global, settings: &mut Settings, zone: &str) -> Result<Answer, Stop>
    ensures acts { Acts settings.new result (inversion_member settings.old Verb.Add zone.now) }
    ensures err { OnErr result (settings.new ≡ settings.old) }
{
    let found = find_zone(alloc, &settings.runtime.config, zone)?;
    require(alloc, !found.zone.inversion, Code::AlreadyEnabled, SUBJECT)?;
    let answer = inverted(
        alloc,
        SignalKind::ZoneIcmpBlockInversionAdded,
        found.zone.name.as_str(),
    )?;
    let place = found.place;
    invert_at(&mut settings.runtime.config.zones, place, true);
    Ok(answer)
}

#[tactic(auto, unfolding(crate::specs::Inversion::inversion_member))]
fn remove_inversion(alloc: Global, settings: &mut Settings, zone: &str) -> Result<Answer, Stop>
    ensures acts { Acts settings.new result (inversion_member settings.old Verb.Remove zone.now) }
    ensures err { OnErr result (settings.new ≡ settings.old) }
{
    let found = find_zone(alloc, &settings.runtime.config, zone)?;
    require(alloc, found.zone.inversion, Code::NotEnabled, SUBJECT)?;
    let answer = inverted(
        alloc,
        SignalKind::ZoneIcmpBlockInversionRemoved,
        found.zone.name.as_str(),
    )?;
    let place = found.place;
    invert_at(&mut settings.runtime.config.zones, place, false);
    Ok(answer)
}

/// `queryIcmpBlockInversion`: whether a zone's ICMP blocks are inverted. Refuses an unknown zone. An empty zone is the default zone.
#[tactic(auto, unfolding(crate::specs::Inversion::inversion_member))]
pub fn query_inversion(alloc: Global, settings: &Settings, zone: &str) -> Result<Answer, Stop>
    ensures { Acts settings.entry.now result (inversion_member settings.entry.now Verb.Query zone.now) }
{
    let found = find_zone(alloc, &settings.runtime.config, zone)?;
    Ok(replied(alloc, Reply::Bool(found.zone.inversion)))
}

/// What is told of a zone whose ICMP blocks were inverted, or are no more.
fn inverted(alloc: Global, kind: SignalKind, zone: &str) -> Result<Answer, Memory>
    ensures { IfOk result (λ answer. answer ≡ record { signals = record { kind = kind; args = argument.Text zone.now ∷ [] } ∷ []; reply = reply.Text zone.now }) }
{
    let mut args = Seq::new(alloc);
    args.push(Arg::Text(Text::of(alloc, zone)?))?;
    told_of(alloc, zone, Signal { kind, args })
}
