//! Members that ask for zones.
ghost use Rattle.std.specs.Prelude.{◌≡◌, map, IfOk, OnOk};
ghost use Rattle.std.specs.List.{filter};
ghost use Rattle.fw_act.specs.Acts.{Acts};
ghost use Rattle.fw_zone_edits.specs.Entries.{source_text};
ghost use Rattle.fw_zone_members.specs.Asking.{active, active_zones_member, is_active, zone_settings_member, zones_member};

use super::reading::find_zone;
use fw_act::{Answer, Stop, replied};
use fw_addr::Iface;
use fw_base::{Memory, Seq, Text, TryCopy};
use fw_calls::{Active, Reply};
use fw_model::{Binding, Zone};
use fw_settings::Settings;
use fw_zone_edits::source_text;
use std::alloc::Global;

/// `getZones`: the names of the zones in force, as they are listed.
pub fn zones_member(alloc: Global, settings: &Settings) -> Result<Answer, Memory>
    ensures { IfOk result (λ answer. zones_member settings.entry.now ≡ record { signals = answer.signals; reply = answer.reply; after = settings.entry.now }) }
{
    let names = zone_names(alloc, settings.runtime.config.zones.as_slice())?;
    Ok(replied(alloc, Reply::Texts(names)))
}

/// `getActiveZones`: the zones in force to which packets belong by bindings, as they are listed.
pub fn active_zones_member(alloc: Global, settings: &Settings) -> Result<Answer, Memory>
    ensures { IfOk result (λ answer. active_zones_member settings.entry.now ≡ record { signals = answer.signals; reply = answer.reply; after = settings.entry.now }) }
{
    let zones = active_zones(alloc, settings.runtime.config.zones.as_slice())?;
    Ok(replied(alloc, Reply::ActiveZones(zones)))
}

/// `getZoneSettings2`: all settings of a zone in force. Refuses an unknown zone; an empty one is the default zone.
#[tactic(auto, unfolding(crate::specs::Asking::zone_settings_member))]
pub fn zone_settings_member(alloc: Global, settings: &Settings, zone: &str) -> Result<Answer, Stop>
    ensures { Acts settings.entry.now result (zone_settings_member settings.entry.now zone.now) }
{
    let found = find_zone(alloc, &settings.runtime.config, zone)?;
    let zone = found.zone.copy(alloc)?;
    Ok(replied(alloc, Reply::ZoneSettings(zone)))
}

fn zone_names(alloc: Global, zones: &[Zone]) -> Result<Seq<Text>, Memory>
    ensures { IfOk result (λ names. names ≡ map (λ zone. zone.name) zones.now) }
{
    let mut names = Seq::new(alloc);
    for zone in zones {
        names.push(Text::of(alloc, zone.name.as_str())?)?;
    }
    Ok(names)
}

fn active_zones(alloc: Global, zones: &[Zone]) -> Result<Seq<Active>, Memory>
    ensures { IfOk result (λ found. found ≡ map active (filter is_active zones.now)) }
{
    let mut found = Seq::new(alloc);
    for zone in zones {
        if is_active(zone) {
            found.push(active(alloc, zone)?)?;
        }
    }
    Ok(found)
}

/// Whether packets belong to a zone by bindings.
pub fn is_active(zone: &Zone) -> bool
    ensures { result ≡ is_active zone.now }
{
    !(zone.interfaces.as_slice().is_empty() && zone.sources.as_slice().is_empty())
}

/// A zone's interfaces and sources as texts.
fn active(alloc: Global, zone: &Zone) -> Result<Active, Memory>
    ensures { IfOk result (λ made. made ≡ active zone.now) }
{
    Ok(Active {
        name: Text::of(alloc, zone.name.as_str())?,
        first: interface_texts(alloc, zone.interfaces.as_slice())?,
        second: source_texts(alloc, zone.sources.as_slice())?,
    })
}

fn interface_texts(alloc: Global, interfaces: &[Iface]) -> Result<Seq<Text>, Memory>
    ensures { IfOk result (λ texts. texts ≡ interfaces.now) }
{
    let mut texts = Seq::new(alloc);
    for iface in interfaces {
        texts.push(Text::of(alloc, iface.as_str())?)?;
    }
    Ok(texts)
}

fn source_texts(alloc: Global, sources: &[Binding]) -> Result<Seq<Text>, Memory>
    ensures { IfOk result (λ texts. texts ≡ map source_text sources.now) }
{
    let mut texts = Seq::new(alloc);
    for source in sources {
        texts.push(source_text(alloc, source)?)?;
    }
    Ok(texts)
}
