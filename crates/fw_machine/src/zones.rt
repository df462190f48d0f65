//! Calls on zones in force.
ghost use Rattle.std.specs.Prelude.{◌≡◌, ◌≤◌, false};
ghost use Rattle.fw_act.specs.Acts.{Acts};
ghost use Rattle.fw_machine.specs.Asking.{Tells};
ghost use Rattle.fw_machine.specs.Zones.{asks_binding, asks_flag, asks_setting, binding_takes_none, setting_takes_none, zone_asks, zone_called, zone_takes_none};
ghost use Rattle.fw_settings.specs.Valid.{last_time};
ghost use Rattle.fw_zone_members.specs.Bindings.{binding_member};
ghost use Rattle.fw_zone_members.specs.Flags.{Flags, is_plain};
ghost use Rattle.fw_zone_members.specs.Inversion.{inversion_member};
ghost use Rattle.fw_zone_members.specs.Settings.{setting_member};

use fw_act::{Answer, Stop};
use fw_calls::{BindingVerb, BindingWord, SettingVerb, SettingWords, Verb, ZoneCall};
use fw_settings::Settings;
use fw_zone_members::{
    active_zones_member, binding_member, interface_flag, inversion_member, query_binding,
    query_inversion, query_setting, setting_flag, setting_member, zone_of_member,
    zone_settings_member, zones_member,
};
use fw_zone_settings::set_zone_settings_member;
use std::alloc::Global;

/// The flag that a call on zones is told, where it is a query that takes no memory and isn't refused.
#[tactic(auto, unfolding(crate::specs::Zones::zone_called, crate::specs::Zones::zone_takes_none))]
pub fn zone_flag(settings: &Settings, call: &ZoneCall) -> Option<bool>
    ensures { Flags settings.entry.now (zone_takes_none call.now) result (zone_called settings.entry.now call.now) }
{
    match call {
        ZoneCall::Setting {
            verb,
            zone,
            setting,
        } => asked_setting_flag(settings, *verb, zone.as_str(), setting),
        ZoneCall::Binding {
            verb,
            zone,
            binding,
        } => asked_binding_flag(settings, *verb, zone.as_str(), binding),
        ZoneCall::Inversion { .. }
        | ZoneCall::ZoneOf { .. }
        | ZoneCall::Zones
        | ZoneCall::ActiveZones
        | ZoneCall::Settings { .. }
        | ZoneCall::SetSettings { .. } => None,
    }
}

fn asked_setting_flag(
    settings: &Settings,
    verb: SettingVerb,
    zone: &str,
    words: &SettingWords,
) -> Option<bool>
    ensures { Flags settings.entry.now (setting_takes_none verb (is_plain words.now)) result (setting_member settings.entry.now verb zone.now words.now) }
{
    match verb {
        SettingVerb::Query => setting_flag(settings, zone, words),
        SettingVerb::Add { .. } | SettingVerb::Remove => None,
    }
}

fn asked_binding_flag(
    settings: &Settings,
    verb: BindingVerb,
    zone: &str,
    word: &BindingWord,
) -> Option<bool>
    ensures { Flags settings.entry.now (binding_takes_none verb word.now.kind) result (binding_member settings.entry.now verb zone.now word.now) }
{
    match verb {
        BindingVerb::Query => interface_flag(settings, zone, word),
        BindingVerb::Add | BindingVerb::Remove | BindingVerb::Change => None,
    }
}

/// What a call on zones is told, where it only asks.
#[tactic(auto, unfolding(crate::specs::Zones::zone_called, crate::specs::Zones::zone_asks))]
pub fn ask_zone(alloc: Global, settings: &Settings, call: &ZoneCall) -> Result<Option<Answer>, Stop>
    ensures { Tells settings.entry.now (zone_asks call.now) result (zone_called settings.entry.now call.now) }
{
    match call {
        ZoneCall::Setting {
            verb,
            zone,
            setting,
        } => ask_setting(alloc, settings, *verb, zone.as_str(), setting),
        ZoneCall::Inversion { verb, zone } => ask_inversion(alloc, settings, *verb, zone.as_str()),
        ZoneCall::Binding {
            verb,
            zone,
            binding,
        } => ask_binding(alloc, settings, *verb, zone.as_str(), binding),
        ZoneCall::ZoneOf { binding } => Ok(Some(zone_of_member(alloc, settings, binding)?)),
        ZoneCall::Zones => Ok(Some(zones_member(alloc, settings)?)),
        ZoneCall::ActiveZones => Ok(Some(active_zones_member(alloc, settings)?)),
        ZoneCall::Settings { zone } => {
            Ok(Some(zone_settings_member(alloc, settings, zone.as_str())?))
        }
        ZoneCall::SetSettings { .. } => Ok(None),
    }
}

fn ask_setting(
    alloc: Global,
    settings: &Settings,
    verb: SettingVerb,
    zone: &str,
    words: &SettingWords,
) -> Result<Option<Answer>, Stop>
    ensures { Tells settings.entry.now (asks_setting verb) result (setting_member settings.entry.now verb zone.now words.now) }
{
    match verb {
        SettingVerb::Query => Ok(Some(query_setting(alloc, settings, zone, words)?)),
        SettingVerb::Add { .. } | SettingVerb::Remove => Ok(None),
    }
}

fn ask_inversion(
    alloc: Global,
    settings: &Settings,
    verb: Verb,
    zone: &str,
) -> Result<Option<Answer>, Stop>
    ensures { Tells settings.entry.now (asks_flag verb) result (inversion_member settings.entry.now verb zone.now) }
{
    match verb {
        Verb::Query => Ok(Some(query_inversion(alloc, settings, zone)?)),
        Verb::Add | Verb::Remove => Ok(None),
    }
}

fn ask_binding(
    alloc: Global,
    settings: &Settings,
    verb: BindingVerb,
    zone: &str,
    word: &BindingWord,
) -> Result<Option<Answer>, Stop>
    ensures { Tells settings.entry.now (asks_binding verb) result (binding_member settings.entry.now verb zone.now word.now) }
{
    match verb {
        BindingVerb::Query => Ok(Some(query_binding(alloc, settings, zone, word)?)),
        BindingVerb::Add | BindingVerb::Remove | BindingVerb::Change => Ok(None),
    }
}

/// Carries out a call on zones that doesn't only ask.
#[tactic(auto, unfolding(crate::specs::Zones::zone_called, crate::specs::Zones::zone_asks))]
pub fn change_zone(alloc: Global, settings: &mut Settings, call: &ZoneCall) -> Result<Answer, Stop>
    requires change { zone_asks call.now ≡ false }
    requires now { settings.old.now ≤ last_time }
    ensures { Acts settings.new result (zone_called settings.old call.now) }
{
    match call {
        ZoneCall::Setting {
            verb,
            zone,
            setting,
        } => setting_member(alloc, settings, *verb, zone.as_str(), setting),
        ZoneCall::Inversion { verb, zone } => {
            inversion_member(alloc, settings, *verb, zone.as_str())
        }
        ZoneCall::Binding {
            verb,
            zone,
            binding,
        } => binding_member(alloc, settings, *verb, zone.as_str(), binding),
        ZoneCall::SetSettings {
            zone,
            settings: dict,
        } => set_zone_settings_member(alloc, settings, zone.as_str(), dict),
        ZoneCall::ZoneOf { .. }
        | ZoneCall::Zones
        | ZoneCall::ActiveZones
        | ZoneCall::Settings { .. } => unreachable!(),
    }
}
