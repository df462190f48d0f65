//! Dicts of settings in JSON.
ghost use Rattle.std.specs.Prelude.{◌≡◌, IfOk, Option, Result};
ghost use Rattle.fw_calls.specs.declared.dict.DictField.TheVariants as fields;
ghost use Rattle.fw_dicts.specs.Keys.{shape_of};
ghost use Rattle.fw_event_line.specs.Dicts.{dict_of, field_of, fields_in, if_fits, if_read, json_dict, value_of};
ghost use Rattle.serde_json.specs.View.{members_view, view};

use fw_base::{Memory, Seq, Text};
use fw_calls::{Dict, DictField};
use fw_dicts::{Owner, Shape, fits, shape_of};
use fw_load::{Stop, Told};
use serde_json::{Map, Value};
use std::alloc::Global;

/// The dict of settings that a JSON text says. None: the text is no object, or a key that is known has a value of another type.
#[tactic(auto, unfolding(crate::specs::Dicts::json_dict))]
pub fn read_dict(alloc: Global, owner: Owner, json: &str) -> Result<Option<Dict>, Memory>
    ensures { IfOk result (λ dict. dict ≡ json_dict owner json.now) }
{
    match Value::from_str(alloc, json) {
        Ok(value) => dict_of(alloc, owner, &value),
        Err(error) => {
            if error.is_memory() {
                return Err(Memory);
            }
            Ok(None)
        }
    }
}

#[tactic(auto, unfolding(crate::specs::Dicts::dict_of))]
fn dict_of(alloc: Global, owner: Owner, value: &Value) -> Result<Option<Dict>, Memory>
    ensures { IfOk result (λ dict. dict ≡ dict_of owner (view value.now)) }
{
    let Some(members) = value.as_object() else {
        return Ok(None);
    };
    match fields_in(alloc, owner, members)? {
        Some(fields) => Ok(Some(Dict { fields })),
        None => Ok(None),
    }
}

#[tactic(auto, using(crate::proofs::Fields::one_more))]
fn fields_in(
    alloc: Global,
    owner: Owner,
    members: &Map<String, Value>,
) -> Result<Option<Seq<(Text, DictField)>>, Memory>
    ensures { IfOk result (λ fields. fields ≡ fields_in owner (members_view members.now.entries)) }
{
    let mut fields = Seq::new(alloc);
    for (key, value) in members.iter() {
        let Some(field) = field_of(alloc, shape_of(owner, key.as_str()), value)? else {
            return Ok(None);
        };
        fields.push((Text::of(alloc, key.as_str())?, field))?;
    }
    Ok(Some(fields))
}

/// What stands under a key; the value of a key that isn't known may be anything.
#[tactic(auto, unfolding(crate::specs::Dicts::field_of))]
fn field_of(alloc: Global, shape: Option<Shape>, value: &Value) -> Result<Option<DictField>, Memory>
    ensures { IfOk result (λ field. field ≡ field_of shape (view value.now)) }
{
    match shape {
        Some(shape) => value_of(alloc, shape, value),
        None => Ok(Some(DictField::Unknown)),
    }
}

#[tactic(auto, unfolding(crate::specs::Dicts::value_of))]
fn value_of(alloc: Global, shape: Shape, value: &Value) -> Result<Option<DictField>, Memory>
    ensures { IfOk result (λ field. field ≡ value_of shape (view value.now)) }
{
    match shape {
        Shape::Text => Ok(if_read::<Text>(alloc, value)?.map(DictField::Text)),
        Shape::Flag => Ok(if_read::<bool>(alloc, value)?.map(DictField::Bool)),
        Shape::Number => Ok(if_read::<i32>(alloc, value)?.map(DictField::Int)),
        Shape::Texts => Ok(if_read::<Seq<Text>>(alloc, value)?.map(DictField::Texts)),
        Shape::Rows(_) => {
            let rows = if_read::<Seq<Seq<Text>>>(alloc, value)?;
            Ok(rows.and_then(|rows| if_fits(shape, DictField::Rows(rows))))
        }
    }
}

/// What a value says, if it says one of these.
fn if_read<T: Told + Drop>(alloc: Global, value: &Value) -> Result<Option<T>, Memory>
    ensures { IfOk result (λ read. read ≡ if_read (T.reading (view value.now))) }
{
    match T::read(alloc, value) {
        Ok(item) => Ok(Some(item)),
        Err(Stop::Fault(_)) => Ok(None),
        Err(Stop::Memory) => Err(Memory),
    }
}

/// A value, where it is of a shape.
fn if_fits(shape: Shape, field: DictField) -> Option<DictField>
    ensures { result ≡ if_fits shape field }
{
    if fits(shape, &field) {
        Some(field)
    } else {
        None
    }
}
