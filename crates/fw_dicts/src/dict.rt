//! Zones and policies as dicts that hold every key.
ghost use Rattle.std.specs.Prelude.{◌≡◌, map, IfOk, OnOk};
ghost use Rattle.fw_addr.specs.Protocols.{proto_text};
ghost use Rattle.fw_dicts.specs.Dicts.{forward_row, policy_dict, policy_fields, port_row, with_field, with_fields, zone_dict, zone_fields};
ghost use Rattle.fw_rich.specs.Canonical.{canon};
ghost use Rattle.fw_zone_edits.specs.Entries.{source_text};

use super::targets::{policy_target_text, zone_target_text};
use fw_addr::{Iface, Proto, print_proto};
use fw_base::{Memory, Seq, Text, TryCopy};
use fw_calls::{Dict, DictField};
use fw_model::{Binding, Forward, Policy, Port, Rich, Zone};
use fw_rich::print_rich;
use fw_zone_edits::{source_text, to_address_text, to_port_text};
use std::alloc::Global;

/// All settings of a zone, in the order of the keys.
#[tactic(auto, using(crate::proofs::Fields::all_fields))]
pub fn zone_dict(alloc: Global, zone: &Zone) -> Result<Dict, Memory>
    ensures { IfOk result (λ dict. dict ≡ zone_dict zone.now) }
{
    let mut fields = Seq::new(alloc);
    push_zone(alloc, &mut fields, zone)?;
    Ok(Dict { fields })
}

/// All settings of a policy, in the order of the keys.
#[tactic(auto, using(crate::proofs::Fields::all_fields))]
pub fn policy_dict(alloc: Global, policy: &Policy) -> Result<Dict, Memory>
    ensures { IfOk result (λ dict. dict ≡ policy_dict policy.now) }
{
    let mut fields = Seq::new(alloc);
    push_policy(alloc, &mut fields, policy)?;
    Ok(Dict { fields })
}

#[tactic(auto, unfolding(crate::specs::Dicts::zone_fields))]
fn push_zone(alloc: Global, fields: &mut Seq<(Text, DictField)>, zone: &Zone) -> Result<(), Memory>
    ensures { OnOk result (fields.new ≡ with_fields fields.old (zone_fields zone.now)) }
{
    push_text(alloc, fields, "version", zone.notes.version.as_str())?;
    push_text(alloc, fields, "short", zone.notes.short.as_str())?;
    push_text(
        alloc,
        fields,
        "description",
        zone.notes.description.as_str(),
    )?;
    push_text(alloc, fields, "target", zone_target_text(zone.target))?;
    push_texts(alloc, fields, "services", &zone.rules.services)?;
    push_ports(alloc, fields, "ports", zone.rules.ports.as_slice())?;
    push_protocols(alloc, fields, "protocols", zone.rules.protocols.as_slice())?;
    push_ports(
        alloc,
        fields,
        "source_ports",
        zone.rules.source_ports.as_slice(),
    )?;
    push_texts(alloc, fields, "icmp_blocks", &zone.rules.icmp_blocks)?;
    push_flag(alloc, fields, "icmp_block_inversion", zone.inversion)?;
    push_flag(alloc, fields, "masquerade", zone.rules.masquerade)?;
    push_forwards(
        alloc,
        fields,
        "forward_ports",
        zone.rules.forwards.as_slice(),
    )?;
    push_rules(alloc, fields, "rules_str", zone.rules.rich.as_slice())?;
    push_interfaces(alloc, fields, "interfaces", zone.interfaces.as_slice())?;
    push_sources(alloc, fields, "sources", zone.sources.as_slice())?;
    push_flag(alloc, fields, "forward", zone.forward)
}

#[tactic(auto, unfolding(crate::specs::Dicts::policy_fields))]
fn push_policy(
    alloc: Global,
    fields: &mut Seq<(Text, DictField)>,
    policy: &Policy,
) -> Result<(), Memory>
    ensures { OnOk result (fields.new ≡ with_fields fields.old (policy_fields policy.now)) }
{
    push_text(alloc, fields, "version", policy.notes.version.as_str())?;
    push_text(alloc, fields, "short", policy.notes.short.as_str())?;
    push_text(
        alloc,
        fields,
        "description",
        policy.notes.description.as_str(),
    )?;
    push_text(alloc, fields, "target", policy_target_text(policy.target))?;
    push_number(alloc, fields, "priority", policy.priority)?;
    push_texts(alloc, fields, "ingress_zones", &policy.ingress)?;
    push_texts(alloc, fields, "egress_zones", &policy.egress)?;
    push_texts(alloc, fields, "services", &policy.rules.services)?;
    push_ports(alloc, fields, "ports", policy.rules.ports.as_slice())?;
    push_protocols(
        alloc,
        fields,
        "protocols",
        policy.rules.protocols.as_slice(),
    )?;
    push_ports(
        alloc,
        fields,
        "source_ports",
        policy.rules.source_ports.as_slice(),
    )?;
    push_texts(alloc, fields, "icmp_blocks", &policy.rules.icmp_blocks)?;
    push_flag(alloc, fields, "masquerade", policy.rules.masquerade)?;
    push_forwards(
        alloc,
        fields,
        "forward_ports",
        policy.rules.forwards.as_slice(),
    )?;
    push_rules(alloc, fields, "rich_rules", policy.rules.rich.as_slice())
}

/// Appends a key with its value.
#[tactic(auto, unfolding(crate::specs::Dicts::with_field))]
fn push(
    alloc: Global,
    fields: &mut Seq<(Text, DictField)>,
    key: &str,
    value: DictField,
) -> Result<(), Memory>
    ensures { OnOk result (fields.new ≡ with_field fields.old key.now value) }
{
    let key = Text::of(alloc, key)?;
    fields.push((key, value))
}

fn push_text(
    alloc: Global,
    fields: &mut Seq<(Text, DictField)>,
    key: &str,
    text: &str,
) -> Result<(), Memory>
    ensures { OnOk result (fields.new ≡ with_field fields.old key.now (DictField.Text text.now)) }
{
    let value = Text::of(alloc, text)?;
    push(alloc, fields, key, DictField::Text(value))
}

fn push_texts(
    alloc: Global,
    fields: &mut Seq<(Text, DictField)>,
    key: &str,
    texts: &Seq<Text>,
) -> Result<(), Memory>
    ensures { OnOk result (fields.new ≡ with_field fields.old key.now (DictField.Texts texts.now)) }
{
    let value = texts.copy(alloc)?;
    push(alloc, fields, key, DictField::Texts(value))
}

fn push_ports(
    alloc: Global,
    fields: &mut Seq<(Text, DictField)>,
    key: &str,
    ports: &[Port],
) -> Result<(), Memory>
    ensures { OnOk result (fields.new ≡ with_field fields.old key.now (DictField.Rows (map port_row ports.now))) }
{
    let value = port_rows(alloc, ports)?;
    push(alloc, fields, key, DictField::Rows(value))
}

fn push_forwards(
    alloc: Global,
    fields: &mut Seq<(Text, DictField)>,
    key: &str,
    forwards: &[Forward],
) -> Result<(), Memory>
    ensures { OnOk result (fields.new ≡ with_field fields.old key.now (DictField.Rows (map forward_row forwards.now))) }
{
    let value = forward_rows(alloc, forwards)?;
    push(alloc, fields, key, DictField::Rows(value))
}

fn push_protocols(
    alloc: Global,
    fields: &mut Seq<(Text, DictField)>,
    key: &str,
    protocols: &[Proto],
) -> Result<(), Memory>
    ensures { OnOk result (fields.new ≡ with_field fields.old key.now (DictField.Texts (map proto_text protocols.now))) }
{
    let value = protocol_texts(alloc, protocols)?;
    push(alloc, fields, key, DictField::Texts(value))
}

fn push_rules(
    alloc: Global,
    fields: &mut Seq<(Text, DictField)>,
    key: &str,
    rules: &[Rich],
) -> Result<(), Memory>
    ensures { OnOk result (fields.new ≡ with_field fields.old key.now (DictField.Texts (map canon rules.now))) }
{
    let value = rule_texts(alloc, rules)?;
    push(alloc, fields, key, DictField::Texts(value))
}

fn push_interfaces(
    alloc: Global,
    fields: &mut Seq<(Text, DictField)>,
    key: &str,
    interfaces: &[Iface],
) -> Result<(), Memory>
    ensures { OnOk result (fields.new ≡ with_field fields.old key.now (DictField.Texts interfaces.now)) }
{
    let value = interface_texts(alloc, interfaces)?;
    push(alloc, fields, key, DictField::Texts(value))
}

fn push_sources(
    alloc: Global,
    fields: &mut Seq<(Text, DictField)>,
    key: &str,
    sources: &[Binding],
) -> Result<(), Memory>
    ensures { OnOk result (fields.new ≡ with_field fields.old key.now (DictField.Texts (map source_text sources.now))) }
{
    let value = source_texts(alloc, sources)?;
    push(alloc, fields, key, DictField::Texts(value))
}

fn push_flag(
    alloc: Global,
    fields: &mut Seq<(Text, DictField)>,
    key: &str,
    flag: bool,
) -> Result<(), Memory>
    ensures { OnOk result (fields.new ≡ with_field fields.old key.now (DictField.Bool flag)) }
{
    push(alloc, fields, key, DictField::Bool(flag))
}

fn push_number(
    alloc: Global,
    fields: &mut Seq<(Text, DictField)>,
    key: &str,
    number: i32,
) -> Result<(), Memory>
    ensures { OnOk result (fields.new ≡ with_field fields.old key.now (DictField.Int number)) }
{
    push(alloc, fields, key, DictField::Int(number))
}

fn port_rows(alloc: Global, ports: &[Port]) -> Result<Seq<Seq<Text>>, Memory>
    ensures { IfOk result (λ rows. rows ≡ map port_row ports.now) }
{
    let mut rows = Seq::new(alloc);
    for port in ports {
        rows.push(port_row(alloc, port)?)?;
    }
    Ok(rows)
}

fn forward_rows(alloc: Global, forwards: &[Forward]) -> Result<Seq<Seq<Text>>, Memory>
    ensures { IfOk result (λ rows. rows ≡ map forward_row forwards.now) }
{
    let mut rows = Seq::new(alloc);
    for forward in forwards {
        rows.push(forward_row(alloc, forward)?)?;
    }
    Ok(rows)
}

/// A port and its protocol.
fn port_row(alloc: Global, port: &Port) -> Result<Seq<Text>, Memory>
    ensures { IfOk result (λ row. row ≡ port_row port.now) }
{
    let Port { range, proto } = *port;
    let mut row = Seq::new(alloc);
    row.push(Text::from_string(format!(in alloc; "{range}")?))?;
    row.push(Text::of(alloc, proto.as_str())?)?;
    Ok(row)
}

/// The same of a forward port, and the port and the address to which packets go.
fn forward_row(alloc: Global, forward: &Forward) -> Result<Seq<Text>, Memory>
    ensures { IfOk result (λ row. row ≡ forward_row forward.now) }
{
    let mut row = port_row(alloc, &forward.port)?;
    row.push(to_port_text(alloc, forward.to_port)?)?;
    row.push(to_address_text(alloc, &forward.to_addr)?)?;
    Ok(row)
}

fn protocol_texts(alloc: Global, protocols: &[Proto]) -> Result<Seq<Text>, Memory>
    ensures { IfOk result (λ texts. texts ≡ map proto_text protocols.now) }
{
    let mut texts = Seq::new(alloc);
    for protocol in protocols {
        texts.push(print_proto(alloc, protocol)?)?;
    }
    Ok(texts)
}

fn rule_texts(alloc: Global, rules: &[Rich]) -> Result<Seq<Text>, Memory>
    ensures { IfOk result (λ texts. texts ≡ map canon rules.now) }
{
    let mut texts = Seq::new(alloc);
    for rule in rules {
        texts.push(print_rich(alloc, rule)?)?;
    }
    Ok(texts)
}

fn interface_texts(alloc: Global, interfaces: &[Iface]) -> Result<Seq<Text>, Memory>
    ensures { IfOk result (λ texts. texts ≡ interfaces.now) }
{
    let mut texts = Seq::new(alloc);
    for iface in interfaces {
        texts.push(Text::of(alloc, iface.as_str())?)?;
    }
    Ok(texts)
}

fn source_texts(alloc: Global, sources: &[Binding]) -> Result<Seq<Text>, Memory>
    ensures { IfOk result (λ texts. texts ≡ map source_text sources.now) }
{
    let mut texts = Seq::new(alloc);
    for source in sources {
        texts.push(source_text(alloc, source)?)?;
    }
    Ok(texts)
}
