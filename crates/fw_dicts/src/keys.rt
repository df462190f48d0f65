//! The keys of settings dicts.
ghost use Rattle.std.specs.Prelude.{◌≡◌, ◌==◌, find, length};
ghost use Rattle.std.specs.List.{list_all};
ghost use Rattle.std.specs.Option.{option_copied};
ghost use Rattle.std.specs.Str.{bytes_eq};
ghost use Rattle.fw_act.specs.Acts.{Reads};
ghost use Rattle.fw_dicts.specs.Keys.{are_rows, first_unknown, fits, is_unknown, known_keys, lesser, misfits, policy_shape, shape_of, value_at, zone_shape};

use super::shape::{Owner, Shape};
use fw_act::{Stop, refuse};
use fw_base::{Seq, Text};
use fw_calls::DictField;
use fw_model::Code;
use std::alloc::Global;

/// Refuses a dict with an unknown key, by the least of them in byte order. A key is unknown, too, whose value is of another type; of
/// equal keys the first alone counts.
#[tactic(auto, unfolding(crate::specs::Keys::known_keys))]
pub fn require_known(alloc: Global, owner: Owner, fields: &[(Text, DictField)]) -> Result<(), Stop>
    ensures { Reads result (known_keys owner fields.now) }
{
    match first_unknown(owner, fields) {
        Some(key) => Err(Stop::Refused(refuse(alloc, Code::InvalidValue, key)?)),
        None => Ok(()),
    }
}

/// The least unknown key in byte order.
#[tactic(auto, unfolding(crate::specs::Keys::first_unknown))]
fn first_unknown<'a>(owner: Owner, fields: &'a [(Text, DictField)]) -> Option<&'a str>
    ensures { option_copied result ≡ first_unknown owner fields.now }
{
    let mut least = None;
    for field in fields {
        if is_unknown(owner, fields, field.0.as_str()) {
            least = Some(lesser(least, field.0.as_str()));
        }
    }
    least
}

/// The lesser text in byte order.
#[tactic(auto, unfolding(crate::specs::Keys::lesser))]
fn lesser<'a>(least: Option<&'a str>, key: &'a str) -> &'a str
    ensures { Some result.now ≡ lesser (option_copied least.entry) key.now }
{
    match least {
        Some(least) if !key.cmp(least).is_lt() => least,
        _ => key,
    }
}

/// Whether a key of a dict isn't known, or its value is of another type.
#[tactic(auto, unfolding(crate::specs::Keys::is_unknown))]
fn is_unknown(owner: Owner, fields: &[(Text, DictField)], key: &str) -> bool
    ensures { result ≡ is_unknown owner fields.now key.now }
{
    match shape_of(owner, key) {
        Some(shape) => misfits(shape, fields, key),
        None => true,
    }
}

fn misfits(shape: Shape, fields: &[(Text, DictField)], key: &str) -> bool
    ensures { result ≡ misfits (Some shape) (value_at fields.now key.now) }
{
    match value_at(fields, key) {
        Some(value) => !fits(shape, value),
        None => true,
    }
}

/// The value of a key; of equal keys the first alone counts.
#[tactic(auto, unfolding(crate::specs::Keys::value_at))]
pub fn value_at<'a>(fields: &'a [(Text, DictField)], key: &str) -> Option<&'a DictField>
    ensures { option_copied result ≡ value_at fields.now key.now }
{
    match field_at(fields, key) {
        Some(field) => Some(&field.1),
        None => None,
    }
}

fn field_at<'a>(fields: &'a [(Text, DictField)], key: &str) -> Option<&'a (Text, DictField)>
    ensures { option_copied result ≡ find (λ field. bytes_eq field.0 key.now) fields.now }
{
    fields.iter().find(|field| field.0.as_str() == key)
}

/// Whether a value is of a type.
#[tactic(auto, unfolding(crate::specs::Keys::fits))]
pub fn fits(shape: Shape, value: &DictField) -> bool
    ensures { result ≡ fits shape value.now }
{
    match shape {
        Shape::Text => is_text(value),
        Shape::Flag => is_flag(value),
        Shape::Number => is_number(value),
        Shape::Texts => are_texts(value),
        Shape::Rows(width) => are_rows(width, value),
    }
}

#[tactic(auto, unfolding(crate::specs::Keys::fits))]
fn is_text(value: &DictField) -> bool
    ensures { result ≡ fits Shape.Text value.now }
{
    match value {
        DictField::Text(_) => true,
        _ => false,
    }
}

#[tactic(auto, unfolding(crate::specs::Keys::fits))]
fn is_flag(value: &DictField) -> bool
    ensures { result ≡ fits Shape.Flag value.now }
{
    match value {
        DictField::Bool(_) => true,
        _ => false,
    }
}

#[tactic(auto, unfolding(crate::specs::Keys::fits))]
fn is_number(value: &DictField) -> bool
    ensures { result ≡ fits Shape.Number value.now }
{
    match value {
        DictField::Int(_) => true,
        _ => false,
    }
}

#[tactic(auto, unfolding(crate::specs::Keys::fits))]
fn are_texts(value: &DictField) -> bool
    ensures { result ≡ fits Shape.Texts value.now }
{
    match value {
        DictField::Texts(_) => true,
        _ => false,
    }
}

fn are_rows(width: usize, value: &DictField) -> bool
    ensures { result ≡ are_rows width value.now }
{
    match value {
        DictField::Rows(rows) => have_width(width, rows.as_slice()),
        _ => false,
    }
}

/// Whether each row has so many texts.
fn have_width(width: usize, rows: &[Seq<Text>]) -> bool
    ensures { result ≡ list_all (λ row. length row == width) rows.now }
{
    rows.iter().all(|row| row.as_slice().len() == width)
}

/// The type of a key's value, if the key is known.
pub fn shape_of(owner: Owner, key: &str) -> Option<Shape>
    ensures { result ≡ shape_of owner key.now }
{
    match owner {
        Owner::Zone => zone_shape(key),
        Owner::Policy => policy_shape(key),
    }
}

#[tactic(auto, unfolding(crate::specs::Keys::zone_shape))]
fn zone_shape(key: &str) -> Option<Shape>
    ensures { result ≡ zone_shape key.now }
{
    match key {
        "version" => Some(Shape::Text),
        "short" => Some(Shape::Text),
        "description" => Some(Shape::Text),
        "target" => Some(Shape::Text),
        "services" => Some(Shape::Texts),
        "ports" => Some(Shape::Rows(2)),
        "protocols" => Some(Shape::Texts),
        "source_ports" => Some(Shape::Rows(2)),
        "icmp_blocks" => Some(Shape::Texts),
        "icmp_block_inversion" => Some(Shape::Flag),
        "masquerade" => Some(Shape::Flag),
        "forward_ports" => Some(Shape::Rows(4)),
        "rules_str" => Some(Shape::Texts),
        "interfaces" => Some(Shape::Texts),
        "sources" => Some(Shape::Texts),
        "forward" => Some(Shape::Flag),
        _ => None,
    }
}

#[tactic(auto, unfolding(crate::specs::Keys::policy_shape))]
fn policy_shape(key: &str) -> Option<Shape>
    ensures { result ≡ policy_shape key.now }
{
    match key {
        "version" => Some(Shape::Text),
        "short" => Some(Shape::Text),
        "description" => Some(Shape::Text),
        "target" => Some(Shape::Text),
        "priority" => Some(Shape::Number),
        "ingress_zones" => Some(Shape::Texts),
        "egress_zones" => Some(Shape::Texts),
        "services" => Some(Shape::Texts),
        "ports" => Some(Shape::Rows(2)),
        "protocols" => Some(Shape::Texts),
        "source_ports" => Some(Shape::Rows(2)),
        "icmp_blocks" => Some(Shape::Texts),
        "masquerade" => Some(Shape::Flag),
        "forward_ports" => Some(Shape::Rows(4)),
        "rich_rules" => Some(Shape::Texts),
        _ => None,
    }
}
