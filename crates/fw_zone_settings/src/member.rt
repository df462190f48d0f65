//! The member that gives a zone other settings.
ghost use Rattle.std.specs.Prelude.{◌≡◌, [], ◌∷◌, IfOk, OnErr};
ghost use Rattle.fw_act.specs.Acts.{Acts};
ghost use Rattle.fw_calls.specs.declared.reply.Reply.TheVariants as reply;
ghost use Rattle.fw_zone_settings.specs.Updates.{set_zone_settings_member, updated_signal};

use super::update::{put, read_update};
use fw_act::{Answer, Stop, told};
use fw_base::{Memory, Seq, Text, TryCopy};
use fw_calls::{Arg, Dict, Reply, Signal, SignalKind};
use fw_model::Zone;
use fw_settings::Settings;
use std::alloc::Global;

/// `setZoneSettings2`: a zone in force has the settings that a dict says. An absent key leaves what there is, repeated elements are kept
/// once, and the timers of settings that go end; those of settings that stay go on.
///
/// Refuses, in this order, an unknown zone; the least unknown key; and by key order a target, an element of a list, and an interface or
/// a source that is none or that another zone has. Nothing changes then, nor for want of memory. An empty zone is the default zone.
#[tactic(auto, unfolding(crate::specs::Updates::set_zone_settings_member))]
pub fn set_zone_settings_member(
    alloc: Global,
    settings: &mut Settings,
    zone: &str,
    dict: &Dict,
) -> Result<Answer, Stop>
    ensures acts { Acts settings.new result (set_zone_settings_member settings.old zone.now dict.now) }
    ensures err { OnErr result (settings.new ≡ settings.old) }
{
    let update = read_update(alloc, settings, zone, dict)?;
    let answer = updated(alloc, &update.zone)?;
    put(settings, update);
    Ok(answer)
}

/// What is told of a zone that has other settings.
fn updated(alloc: Global, zone: &Zone) -> Result<Answer, Memory>
    ensures { IfOk result (λ answer. answer ≡ record { signals = updated_signal zone.now ∷ []; reply = reply.None }) }
{
    let signal = updated_signal(alloc, zone)?;
    told(alloc, signal, Reply::None)
}

/// The signal of it: the zone's name, and all its settings.
#[tactic(auto, unfolding(crate::specs::Updates::updated_signal))]
fn updated_signal(alloc: Global, zone: &Zone) -> Result<Signal, Memory>
    ensures { IfOk result (λ signal. signal ≡ updated_signal zone.now) }
{
    let mut args = Seq::new(alloc);
    args.push(Arg::Text(Text::of(alloc, zone.name.as_str())?))?;
    args.push(Arg::Zone(zone.copy(alloc)?))?;
    Ok(Signal {
        kind: SignalKind::ZoneUpdated,
        args,
    })
}
