//! Values that are told by objects, which have exactly the keys of their tables.
ghost use Rattle.fw_load.specs.Answers.{Says};
ghost use Rattle.fw_load.specs.Fields.{known};
ghost use Rattle.fw_load.specs.Objects.{an_object, config, config_keys, ipset, ipset_keys, policy, policy_keys, service, service_keys, settings, zone, zone_keys};
ghost use Rattle.serde_json.specs.View.{view};

use crate::fields::{field, known};
use crate::format::FirstFormat;
use crate::parts::{read_listed, read_notes, read_translated, rules_of};
use crate::stop::{Stop, here};
use crate::told::Told;
use fw_model::{Config, IpSet, Policy, Service, Zone};
use serde_json::Value;
use std::alloc::Global;

impl Told for IpSet {
    ghost reading = { ipset };

    #[tactic(auto, unfolding(crate::specs::Objects::ipset))]
    fn read(alloc: Global, value: &Value) -> Result<IpSet, Stop> {
        has_ipset_keys(alloc, value)?;
        let name = field(alloc, "name", value)?;
        let kind = field(alloc, "type", value)?;
        let family = field(alloc, "family", value)?;
        let timeout = field(alloc, "timeout", value)?;
        let items = field(alloc, "entries", value)?;
        Ok(IpSet {
            name,
            kind,
            family,
            timeout,
            items,
        })
    }
}

#[tactic(auto, unfolding(crate::specs::Objects::ipset_keys))]
fn has_ipset_keys(alloc: Global, value: &Value) -> Result<(), Stop>
    ensures { Says result (known ipset_keys (view value.now)) }
{
    known(
        alloc,
        &["entries", "family", "name", "timeout", "type"],
        value,
    )
}

impl Told for Service {
    ghost reading = { service };

    #[tactic(auto, unfolding(crate::specs::Objects::service))]
    fn read(alloc: Global, value: &Value) -> Result<Service, Stop> {
        has_service_keys(alloc, value)?;
        let name = field(alloc, "name", value)?;
        let includes = field(alloc, "includes", value)?;
        let ports = field(alloc, "ports", value)?;
        let protocols = field(alloc, "protocols", value)?;
        let source_ports = field(alloc, "source_ports", value)?;
        let v4 = field(alloc, "destination_v4", value)?;
        let v6 = field(alloc, "destination_v6", value)?;
        Ok(Service {
            name,
            includes,
            ports,
            protocols,
            source_ports,
            v4,
            v6,
        })
    }
}

#[tactic(auto, unfolding(crate::specs::Objects::service_keys))]
fn has_service_keys(alloc: Global, value: &Value) -> Result<(), Stop>
    ensures { Says result (known service_keys (view value.now)) }
{
    known(
        alloc,
        &[
            "destination_v4",
            "destination_v6",
            "includes",
            "name",
            "ports",
            "protocols",
            "source_ports",
        ],
        value,
    )
}

impl Told for Zone {
    ghost reading = { zone };

    #[tactic(auto, unfolding(crate::specs::Objects::zone))]
    fn read(alloc: Global, value: &Value) -> Result<Zone, Stop> {
        has_zone_keys(alloc, value)?;
        let name = field(alloc, "name", value)?;
        let notes = read_notes(alloc, value)?;
        let target = field(alloc, "target", value)?;
        let listed = read_listed(alloc, value)?;
        let inversion = field(alloc, "icmp_block_inversion", value)?;
        let translated = read_translated(alloc, "rules_str", value)?;
        let interfaces = field(alloc, "interfaces", value)?;
        let sources = field(alloc, "sources", value)?;
        let forward = field(alloc, "forward", value)?;
        Ok(Zone {
            name,
            notes,
            target,
            rules: rules_of(listed, translated),
            inversion,
            forward,
            interfaces,
            sources,
        })
    }
}

#[tactic(auto, unfolding(crate::specs::Objects::zone_keys))]
fn has_zone_keys(alloc: Global, value: &Value) -> Result<(), Stop>
    ensures { Says result (known zone_keys (view value.now)) }
{
    known(
        alloc,
        &[
            "description",
            "forward",
            "forward_ports",
            "icmp_block_inversion",
            "icmp_blocks",
            "interfaces",
            "masquerade",
            "name",
            "ports",
            "protocols",
            "rules_str",
            "services",
            "short",
            "source_ports",
            "sources",
            "target",
            "version",
        ],
        value,
    )
}

impl Told for Policy {
    ghost reading = { policy };

    #[tactic(auto, unfolding(crate::specs::Objects::policy))]
    fn read(alloc: Global, value: &Value) -> Result<Policy, Stop> {
        has_policy_keys(alloc, value)?;
        let name = field(alloc, "name", value)?;
        let notes = read_notes(alloc, value)?;
        let target = field(alloc, "target", value)?;
        let priority = field(alloc, "priority", value)?;
        let ingress = field(alloc, "ingress_zones", value)?;
        let egress = field(alloc, "egress_zones", value)?;
        let listed = read_listed(alloc, value)?;
        let translated = read_translated(alloc, "rich_rules", value)?;
        Ok(Policy {
            name,
            notes,
            target,
            priority,
            ingress,
            egress,
            rules: rules_of(listed, translated),
        })
    }
}

#[tactic(auto, unfolding(crate::specs::Objects::policy_keys))]
fn has_policy_keys(alloc: Global, value: &Value) -> Result<(), Stop>
    ensures { Says result (known policy_keys (view value.now)) }
{
    known(
        alloc,
        &[
            "description",
            "egress_zones",
            "forward_ports",
            "icmp_blocks",
            "ingress_zones",
            "masquerade",
            "name",
            "ports",
            "priority",
            "protocols",
            "rich_rules",
            "services",
            "short",
            "source_ports",
            "target",
            "version",
        ],
        value,
    )
}

impl Told for Config {
    ghost reading = { config };

    #[tactic(auto, unfolding(crate::specs::Objects::config))]
    fn read(alloc: Global, value: &Value) -> Result<Config, Stop> {
        an_object(alloc, value)?;
        let _format: FirstFormat = field(alloc, "format", value)?;
        has_config_keys(alloc, value)?;
        settings(alloc, value)
    }
}

/// What stands under the keys of a configuration.
#[tactic(auto, unfolding(crate::specs::Objects::settings))]
fn settings(alloc: Global, value: &Value) -> Result<Config, Stop>
    ensures { Says result (settings (view value.now)) }
{
    let default_zone = field(alloc, "default_zone", value)?;
    let log_denied = field(alloc, "log_denied", value)?;
    let zones = field(alloc, "zones", value)?;
    let policies = field(alloc, "policies", value)?;
    let services = field(alloc, "services", value)?;
    let ipsets = field(alloc, "ipsets", value)?;
    Ok(Config {
        default_zone,
        log_denied,
        zones,
        policies,
        services,
        ipsets,
    })
}

/// Looks whether a value is an object. Fault: it is none.
fn an_object(alloc: Global, value: &Value) -> Result<(), Stop>
    ensures { Says result (an_object (view value.now)) }
{
    match value.as_object() {
        Some(_) => Ok(()),
        None => Err(here(alloc)),
    }
}

#[tactic(auto, unfolding(crate::specs::Objects::config_keys))]
fn has_config_keys(alloc: Global, value: &Value) -> Result<(), Stop>
    ensures { Says result (known config_keys (view value.now)) }
{
    known(
        alloc,
        &[
            "default_zone",
            "format",
            "ipsets",
            "log_denied",
            "policies",
            "services",
            "zones",
        ],
        value,
    )
}
