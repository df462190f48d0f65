//! Members on settings of a zone.
ghost use Rattle.std.specs.Prelude.{◌≡◌, ◌≤◌, ◌<◌, [], ◌∷◌, Some, length, slice_get, IfOk, OnOk, OnErr};
ghost use Rattle.fw_act.specs.Acts.{Acts, Keeps, Makes};
ghost use Rattle.fw_calls.specs.declared.reply.Reply.TheVariants as reply;
ghost use Rattle.fw_model.specs.declared.zone.Zone.{Zone};
ghost use Rattle.fw_settings.specs.Valid.{last_time};
ghost use Rattle.fw_zone_members.specs.Settings.{add_setting, query_setting, remove_setting, setting_member, timer, with_found, with_timer, without_found};
ghost use Rattle.fw_zone_edits.specs.Signals.{added_signal, removed_signal};

use super::edits::{add_setting_at, remove_setting_at};
use super::reading::{find_zone, read_seconds};
use super::setting::read_setting;
use super::told::{answer_after, told_of};
use fw_act::{Answer, Stop, replied};
use fw_base::{Memory, Text, TryCopy};
use fw_calls::{Reply, SettingVerb, SettingWords};
use fw_model::{Setting, Timed, Zone};
use fw_settings::Settings;
use fw_timed::Timers;
use fw_zone_edits::{added_signal, has_setting, removed_signal};
use std::alloc::Global;

/// `addPort`, `removePort`, `queryPort` and their kin: a setting comes to a zone, with a timer where it has a timeout; it goes, with its
/// timer; or it is asked for.
///
/// Refuses, in this order, an unknown zone, a timeout below 0, an argument, and a setting that is there already or isn't there; the
/// settings are then as before. An empty zone is the default zone.
#[tactic(auto, using(crate::proofs::Kept::kept_from))]
pub fn setting_member(
    alloc: Global,
    settings: &mut Settings,
    verb: SettingVerb,
    zone: &str,
    words: &SettingWords,
) -> Result<Answer, Stop>
    requires { settings.old.now ≤ last_time }
    ensures acts { Acts settings.new result (setting_member settings.old verb zone.now words.now) }
    ensures kept { Keeps settings.old settings.new result }
{
    match verb {
        SettingVerb::Add { timeout } => add_setting(alloc, settings, zone, timeout, words),
        SettingVerb::Remove => remove_setting(alloc, settings, zone, words),
        SettingVerb::Query => query_setting(alloc, settings, zone, words),
    }
}

#[tactic(auto, unfolding(crate::specs::Settings::add_setting))]
fn add_setting(
    alloc: Global,
    settings: &mut Settings,
    zone: &str,
    timeout: i32,
    words: &SettingWords,
) -> Result<Answer, Stop>
    requires { settings.old.now ≤ last_time }
    ensures acts { Acts settings.new result (add_setting settings.old zone.now timeout words.now) }
    ensures kept { Keeps settings.old settings.new result }
{
    let config = &settings.runtime.config;
    let found = find_zone(alloc, config, zone)?;
    let seconds = read_seconds(alloc, timeout)?;
    let setting = read_setting(alloc, config, words)?;
    let answer = added_answer(alloc, found.zone.name.as_str(), &setting, timeout)?;
    let place = found.place;
    let added = add_found(alloc, settings, place, setting, seconds);
    answer_after(added, answer)
}

fn added_answer(
    alloc: Global,
    zone: &str,
    setting: &Setting,
    timeout: i32,
) -> Result<Answer, Memory>
    ensures { IfOk result (λ answer. answer ≡ record { signals = added_signal zone.now setting.now timeout ∷ []; reply = reply.Text zone.now }) }
{
    let signal = added_signal(alloc, zone, setting, timeout)?;
    told_of(alloc, zone, signal)
}

/// A setting comes to the zone at a place, and its timer to the others. Where it's refused nothing changes.
#[tactic(auto, unfolding(crate::specs::Settings::with_found))]
fn add_found(
    alloc: Global,
    settings: &mut Settings,
    place: usize,
    setting: Setting,
    seconds: u32,
) -> Result<(), Stop>
    requires now { settings.old.now ≤ last_time }
    requires within { place < length settings.old.runtime.config.zones }
    ensures makes { (zone : Zone) → slice_get settings.old.runtime.config.zones place ≡ Some zone
        → Makes settings.new result (with_found settings.old (record { place = place; zone = zone }) seconds setting) }
    ensures kept { Keeps settings.old settings.new result }
{
    let name = zone_name(alloc, settings.runtime.config.zones.as_slice(), place)?;
    let timed = timer(alloc, settings.now, name, &setting, seconds)?;
    add_setting_at(alloc, &mut settings.runtime.config.zones, place, setting)?;
    push_timer(&mut settings.timers, timed)?;
    Ok(())
}

/// The name of the zone at a place.
fn zone_name(alloc: Global, zones: &[Zone], place: usize) -> Result<Text, Memory>
    requires { place < length zones.now }
    ensures { (zone : Zone) → slice_get zones.now place ≡ Some zone → IfOk result (λ name. name ≡ zone.name) }
{
    Text::of(alloc, zones[place].name.as_str())
}

/// The timer of a setting that came, unless it stays for good.
#[tactic(auto, unfolding(crate::specs::Settings::timer))]
fn timer(
    alloc: Global,
    now: u64,
    zone: Text,
    setting: &Setting,
    seconds: u32,
) -> Result<Option<Timed>, Memory>
    requires { now ≤ last_time }
    ensures { IfOk result (λ timed. timed ≡ timer now zone setting.now seconds) }
{
    if seconds == 0 {
        return Ok(None);
    }
    Ok(Some(Timed {
        deadline: now + u64::from(seconds),
        zone,
        setting: setting.copy(alloc)?,
    }))
}

#[tactic(auto, unfolding(crate::specs::Settings::with_timer))]
fn push_timer(timers: &mut Timers, timed: Option<Timed>) -> Result<(), Memory>
    ensures { OnOk result (timers.new ≡ with_timer timers.old timed) }
{
    match timed {
        Some(timed) => timers.add(timed),
        None => Ok(()),
    }
}

#[tactic(auto, unfolding(crate::specs::Settings::remove_setting))]
fn remove_setting(
    alloc: Global,
    settings: &mut Settings,
    zone: &str,
    words: &SettingWords,
) -> Result<Answer, Stop>
    ensures acts { Acts settings.new result (remove_setting settings.old zone.now words.now) }
    ensures err { OnErr result (settings.new ≡ settings.old) }
{
    let config = &settings.runtime.config;
    let found = find_zone(alloc, config, zone)?;
    let setting = read_setting(alloc, config, words)?;
    let answer = removed_answer(alloc, found.zone.name.as_str(), &setting)?;
    let place = found.place;
    let removed = remove_found(alloc, settings, place, setting);
    answer_after(removed, answer)
}

fn removed_answer(alloc: Global, zone: &str, setting: &Setting) -> Result<Answer, Memory>
    ensures { IfOk result (λ answer. answer ≡ record { signals = removed_signal zone.now setting.now ∷ []; reply = reply.Text zone.now }) }
{
    let signal = removed_signal(alloc, zone, setting)?;
    told_of(alloc, zone, signal)
}

/// A setting goes from the zone at a place, with its timer.
#[tactic(auto, unfolding(crate::specs::Settings::without_found))]
fn remove_found(
    alloc: Global,
    settings: &mut Settings,
    place: usize,
    setting: Setting,
) -> Result<(), Stop>
    requires { place < length settings.old.runtime.config.zones }
    ensures makes { (zone : Zone) → slice_get settings.old.runtime.config.zones place ≡ Some zone
        → Makes settings.new result (without_found settings.old (record { place = place; zone = zone }) setting) }
    ensures err { OnErr result (settings.new ≡ settings.old) }
{
    let name = zone_name(alloc, settings.runtime.config.zones.as_slice(), place)?;
    remove_setting_at(alloc, &mut settings.runtime.config.zones, place, &setting)?;
    let _ = settings.timers.cancel(name.as_str(), &setting);
    Ok(())
}

/// `queryPort` and its kin: whether a zone has a setting.
///
/// Refuses an unknown zone, and then an argument. An empty zone is the default zone.
#[tactic(auto, unfolding(crate::specs::Settings::query_setting))]
pub fn query_setting(
    alloc: Global,
    settings: &Settings,
    zone: &str,
    words: &SettingWords,
) -> Result<Answer, Stop>
    ensures { Acts settings.entry.now result (query_setting settings.entry.now zone.now words.now) }
{
    let config = &settings.runtime.config;
    let found = find_zone(alloc, config, zone)?;
    let setting = read_setting(alloc, config, words)?;
    let is_there = has_setting(&found.zone.rules, &setting);
    Ok(replied(alloc, Reply::Bool(is_there)))
}
