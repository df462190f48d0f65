//! What a dict makes of a zone.
ghost use Rattle.std.specs.Prelude.{◌≡◌, ◌<◌, [], ◌++◌, length, IfOk};
ghost use Rattle.fw_act.specs.Acts.{Reads};
ghost use Rattle.fw_dicts.specs.Zones.{new_zone, no_rules, others, with_settings, zone_told};

use super::bindings::read_entries;
use super::keys::require_known;
use super::lists::read_rules;
use super::shape::Owner;
use super::targets::read_zone_target;
use super::values::{flag_at, flag_or, read_notes, text_at};
use fw_act::Stop;
use fw_base::{Memory, Seq, Text, TryCopy};
use fw_calls::{BindingKind, Dict, DictField};
use fw_model::{Config, Notes, Rules, Zone, ZoneTarget};
use std::alloc::Global;

/// The zone that a dict makes of a zone; an absent key leaves what there is, and repeated elements are kept once. Services and ipsets
/// are those of the configuration; the other zones are those before the zone and behind it.
///
/// Refuses the least unknown key; then by key order a target, an element of a list, and an interface or a source that is none or that
/// another zone has.
#[tactic(auto, unfolding(crate::specs::Zones::zone_told))]
pub fn read_zone(
    alloc: Global,
    config: &Config,
    before: &[Zone],
    behind: &[Zone],
    zone: &Zone,
    dict: &Dict,
) -> Result<Zone, Stop>
    ensures { Reads result (zone_told config.now (before.now ++ behind.now) zone.now dict.now) }
{
    let fields = dict.fields.as_slice();
    let ipsets = config.ipsets.as_slice();
    require_known(alloc, Owner::Zone, fields)?;
    let target = read_zone_target(alloc, text_at(fields, "target"), zone.target)?;
    let rules = read_rules(alloc, config, Owner::Zone, fields, &zone.rules)?;
    let mut told = with_settings(alloc, fields, zone, target, rules)?;
    read_entries(
        alloc,
        ipsets,
        before,
        behind,
        fields,
        BindingKind::Interface,
        &mut told,
    )?;
    read_entries(
        alloc,
        ipsets,
        before,
        behind,
        fields,
        BindingKind::Source,
        &mut told,
    )?;
    Ok(told)
}

/// What a dict makes of the zone at a place of the configuration, beside its other zones (`read_zone`).
pub fn read_zone_at(
    alloc: Global,
    config: &Config,
    place: usize,
    zone: &Zone,
    dict: &Dict,
) -> Result<Zone, Stop>
    requires { place < length config.now.zones }
    ensures { Reads result (zone_told config.now (others config.now.zones place) zone.now dict.now) }
{
    let zones = config.zones.as_slice();
    let before = &zones[..place];
    let behind = &zones[place + 1..];
    read_zone(alloc, config, before, behind, zone, dict)
}

/// A zone with other settings; its bindings are as they were.
#[tactic(auto, unfolding(crate::specs::Zones::with_settings))]
fn with_settings(
    alloc: Global,
    fields: &[(Text, DictField)],
    zone: &Zone,
    target: ZoneTarget,
    rules: Rules,
) -> Result<Zone, Memory>
    ensures { IfOk result (λ told. told ≡ with_settings fields.now zone.now target rules) }
{
    let notes = read_notes(alloc, fields, &zone.notes)?;
    let name = zone.name.copy(alloc)?;
    let interfaces = zone.interfaces.copy(alloc)?;
    let sources = zone.sources.copy(alloc)?;
    Ok(Zone {
        name,
        notes,
        target,
        rules,
        inversion: flag_or(flag_at(fields, "icmp_block_inversion"), zone.inversion),
        forward: flag_or(flag_at(fields, "forward"), zone.forward),
        interfaces,
        sources,
    })
}

/// A zone before a dict says its settings: without any, and with the target `default`.
pub fn new_zone(alloc: Global, name: &str) -> Result<Zone, Memory>
    ensures { IfOk result (λ zone. zone ≡ new_zone name.now) }
{
    let name = Text::of(alloc, name)?;
    let notes = no_notes(alloc)?;
    Ok(Zone {
        name,
        notes,
        target: ZoneTarget::Default,
        rules: no_rules(alloc),
        inversion: false,
        forward: false,
        interfaces: Seq::new(alloc),
        sources: Seq::new(alloc),
    })
}

/// Notes that say nothing.
pub fn no_notes(alloc: Global) -> Result<Notes, Memory>
    ensures { IfOk result (λ notes. notes ≡ record { version = []; short = []; description = [] }) }
{
    Ok(Notes {
        version: Text::of(alloc, "")?,
        short: Text::of(alloc, "")?,
        description: Text::of(alloc, "")?,
    })
}

/// Settings of which there is none.
pub fn no_rules(alloc: Global) -> Rules
    ensures { result ≡ no_rules }
{
    Rules {
        services: Seq::new(alloc),
        ports: Seq::new(alloc),
        protocols: Seq::new(alloc),
        source_ports: Seq::new(alloc),
        icmp_blocks: Seq::new(alloc),
        masquerade: false,
        forwards: Seq::new(alloc),
        rich: Seq::new(alloc),
    }
}
