//! Values that are told by objects.
ghost use Rattle.std.specs.Prelude.{◌≡◌, OnOk};
ghost use Rattle.fw_store.specs.Objects.{ipset_data, notes_rows, policy_data, rules_rows, service_data, with_rows, zone_data};
ghost use Rattle.serde_json.specs.View.{members_view};

use crate::stored::{Stored, put_member};
use fw_base::Memory;
use fw_model::{IpSet, Notes, Policy, Rules, Service, Zone};
use serde_json::{Map, Value};
use std::alloc::Global;

/// What an administrator notes.
fn put_notes(alloc: Global, members: &mut Map<String, Value>, notes: &Notes) -> Result<(), Memory>
    ensures { OnOk result (members_view members.new.entries ≡ with_rows (notes_rows notes.now) (members_view members.old.entries)) }
{
    put_member(alloc, members, "version", &notes.version)?;
    put_member(alloc, members, "short", &notes.short)?;
    put_member(alloc, members, "description", &notes.description)
}

/// What zones and policies have in common, but for rich rules.
fn put_rules(alloc: Global, members: &mut Map<String, Value>, rules: &Rules) -> Result<(), Memory>
    ensures { OnOk result (members_view members.new.entries ≡ with_rows (rules_rows rules.now) (members_view members.old.entries)) }
{
    put_member(alloc, members, "services", &rules.services)?;
    put_member(alloc, members, "ports", &rules.ports)?;
    put_member(alloc, members, "protocols", &rules.protocols)?;
    put_member(alloc, members, "source_ports", &rules.source_ports)?;
    put_member(alloc, members, "icmp_blocks", &rules.icmp_blocks)?;
    put_member(alloc, members, "masquerade", &rules.masquerade)?;
    put_member(alloc, members, "forward_ports", &rules.forwards)
}

impl Stored for Zone {
    ghost json = { zone_data };

    fn to_value(&self, alloc: Global) -> Result<Value, Memory> {
        let mut members = Map::new(alloc);
        put_notes(alloc, &mut members, &self.notes)?;
        put_rules(alloc, &mut members, &self.rules)?;
        put_member(alloc, &mut members, "name", &self.name)?;
        put_member(alloc, &mut members, "target", &self.target)?;
        put_member(alloc, &mut members, "icmp_block_inversion", &self.inversion)?;
        put_member(alloc, &mut members, "rules_str", &self.rules.rich)?;
        put_member(alloc, &mut members, "interfaces", &self.interfaces)?;
        put_member(alloc, &mut members, "sources", &self.sources)?;
        put_member(alloc, &mut members, "forward", &self.forward)?;
        Ok(Value::Object(members))
    }
}

impl Stored for Policy {
    ghost json = { policy_data };

    fn to_value(&self, alloc: Global) -> Result<Value, Memory> {
        let mut members = Map::new(alloc);
        put_notes(alloc, &mut members, &self.notes)?;
        put_rules(alloc, &mut members, &self.rules)?;
        put_member(alloc, &mut members, "name", &self.name)?;
        put_member(alloc, &mut members, "target", &self.target)?;
        put_member(alloc, &mut members, "priority", &self.priority)?;
        put_member(alloc, &mut members, "ingress_zones", &self.ingress)?;
        put_member(alloc, &mut members, "egress_zones", &self.egress)?;
        put_member(alloc, &mut members, "rich_rules", &self.rules.rich)?;
        Ok(Value::Object(members))
    }
}

impl Stored for Service {
    ghost json = { service_data };

    fn to_value(&self, alloc: Global) -> Result<Value, Memory> {
        let mut members = Map::new(alloc);
        put_member(alloc, &mut members, "name", &self.name)?;
        put_member(alloc, &mut members, "includes", &self.includes)?;
        put_member(alloc, &mut members, "ports", &self.ports)?;
        put_member(alloc, &mut members, "protocols", &self.protocols)?;
        put_member(alloc, &mut members, "source_ports", &self.source_ports)?;
        put_member(alloc, &mut members, "destination_v4", &self.v4)?;
        put_member(alloc, &mut members, "destination_v6", &self.v6)?;
        Ok(Value::Object(members))
    }
}

impl Stored for IpSet {
    ghost json = { ipset_data };

    fn to_value(&self, alloc: Global) -> Result<Value, Memory> {
        let mut members = Map::new(alloc);
        put_member(alloc, &mut members, "name", &self.name)?;
        put_member(alloc, &mut members, "type", &self.kind)?;
        put_member(alloc, &mut members, "family", &self.family)?;
        put_member(alloc, &mut members, "timeout", &self.timeout)?;
        put_member(alloc, &mut members, "entries", &self.items)?;
        Ok(Value::Object(members))
    }
}
