//! Zones and policies.
ghost use Rattle.std.specs.Prelude.{◌<◌, IfOk, IfSome, length};

use crate::settings::{add_setting, no_notes, read_names, read_rules};
use fw_addr::{Family, read_iface, read_mac, read_net};
use fw_base::{Seq, Text};
use fw_model::{Binding, Config, Policy, PolicyTarget, Zone, ZoneTarget};
use fw_words::LineError;
use std::alloc::Global;

/// `NAME TARGET SETTING ..`, where the target is `default`, `ACCEPT`, `REJECT` or `DROP`; the zone forwards within itself.
pub fn read_zone(alloc: Global, words: &[&str]) -> Result<Zone, LineError> {
    let [name, target, settings @ ..] = words else {
        return Err(LineError::BadLine);
    };
    let rules = read_rules(alloc, settings)?;
    Ok(Zone {
        name: Text::of(alloc, name)?,
        notes: no_notes(alloc)?,
        target: read_zone_target(target)?,
        rules,
        inversion: false,
        forward: true,
        interfaces: Seq::new(alloc),
        sources: Seq::new(alloc),
    })
}

fn read_zone_target(word: &str) -> Result<ZoneTarget, LineError> {
    match word {
        "default" => Ok(ZoneTarget::Default),
        "ACCEPT" => Ok(ZoneTarget::Accept),
        "REJECT" => Ok(ZoneTarget::Reject),
        "DROP" => Ok(ZoneTarget::Drop),
        _ => Err(LineError::BadLine),
    }
}

/// `NAME PRIORITY TARGET INGRESS EGRESS SETTING ..`, where each side is names between commas, or `-` for none.
pub fn read_policy(alloc: Global, words: &[&str]) -> Result<Policy, LineError> {
    let [name, priority, target, ingress, egress, settings @ ..] = words else {
        return Err(LineError::BadLine);
    };
    let Ok(priority) = priority.parse::<i32>() else {
        return Err(LineError::BadLine);
    };
    let rules = read_rules(alloc, settings)?;
    Ok(Policy {
        name: Text::of(alloc, name)?,
        notes: no_notes(alloc)?,
        target: read_policy_target(target)?,
        priority,
        ingress: read_names(alloc, ingress)?,
        egress: read_names(alloc, egress)?,
        rules,
    })
}

fn read_policy_target(word: &str) -> Result<PolicyTarget, LineError> {
    match word {
        "CONTINUE" => Ok(PolicyTarget::Continue),
        "ACCEPT" => Ok(PolicyTarget::Accept),
        "REJECT" => Ok(PolicyTarget::Reject),
        "DROP" => Ok(PolicyTarget::Drop),
        _ => Err(LineError::BadLine),
    }
}

/// `ZONE ENTRY ..`: nets, hardware addresses and `ipset:NAME` are sources, all others interfaces.
pub fn bind(alloc: Global, config: &mut Config, words: &[&str]) -> Result<(), LineError> {
    let [name, entries @ ..] = words else {
        return Err(LineError::BadLine);
    };
    let place = zone_at(config, name)?;
    add_entries(alloc, config.zones.get_mut(place), entries)
}

fn add_entries(alloc: Global, zone: &mut Zone, entries: &[&str]) -> Result<(), LineError> {
    for entry in entries {
        add_entry(alloc, zone, entry)?;
    }
    Ok(())
}

fn add_entry(alloc: Global, zone: &mut Zone, entry: &str) -> Result<(), LineError> {
    if let Some(name) = entry.strip_prefix("ipset:") {
        zone.sources.push(Binding::Set(Text::of(alloc, name)?))?;
    } else if let Ok(net) = read_net(entry) {
        zone.sources.push(Binding::Net(net))?;
    } else if let Ok(address) = read_mac(entry) {
        zone.sources.push(Binding::Mac(address))?;
    } else {
        let Ok(name) = read_iface(entry) else {
            return Err(LineError::BadLine);
        };
        zone.interfaces.push(name)?;
    }
    Ok(())
}

/// `ZONE SETTING ..`; here a setting may also be `inversion` or `no-forward`.
pub fn set(alloc: Global, config: &mut Config, words: &[&str]) -> Result<(), LineError> {
    let [name, settings @ ..] = words else {
        return Err(LineError::BadLine);
    };
    let place = zone_at(config, name)?;
    add_settings(alloc, config.zones.get_mut(place), settings)
}

fn add_settings(alloc: Global, zone: &mut Zone, settings: &[&str]) -> Result<(), LineError> {
    for setting in settings {
        match *setting {
            "inversion" => zone.inversion = true,
            "no-forward" => zone.forward = false,
            _ => add_setting(alloc, &mut zone.rules, setting)?,
        }
    }
    Ok(())
}

/// `ZONE FAMILY` or `ZONE PRIORITY`: the zone's last rich rule has another family (`ipv4`, `ipv6` or `none`) or another priority.
pub fn change_rich(config: &mut Config, words: &[&str], is_family: bool) -> Result<(), LineError> {
    let [name, word] = words else {
        return Err(LineError::BadLine);
    };
    let place = zone_at(config, name)?;
    let rules = &mut config.zones.get_mut(place).rules.rich;
    let Some(last) = rules.as_slice().len().checked_sub(1) else {
        return Err(LineError::BadLine);
    };
    let rule = rules.get_mut(last);
    if is_family {
        rule.family = read_family(word)?;
    } else {
        let Ok(priority) = word.parse::<i32>() else {
            return Err(LineError::BadLine);
        };
        rule.priority = priority;
    }
    Ok(())
}

fn read_family(word: &str) -> Result<Option<Family>, LineError> {
    match word {
        "ipv4" => Ok(Some(Family::V4)),
        "ipv6" => Ok(Some(Family::V6)),
        "none" => Ok(None),
        _ => Err(LineError::BadLine),
    }
}

/// The place of the zone of a name.
fn zone_at(config: &Config, name: &str) -> Result<usize, LineError>
    ensures { IfOk result (λ place. place < length config.now.zones) }
{
    match place_of(config, name) {
        Some(place) => Ok(place),
        None => Err(LineError::BadLine),
    }
}

fn place_of(config: &Config, name: &str) -> Option<usize>
    ensures { IfSome result (λ place. place < length config.now.zones) }
{
    config
        .zones
        .as_slice()
        .iter()
        .position(|zone| zone.name.as_str() == name)
}
