//! Bodies of messages.

ghost use Rattle.std.specs.Prelude.{◌≡◌, ◌<◌, ◌≤◌, ◌-◌, ◌^◌, ◌++◌, ◌↔◌, [], IsTrue, length, slice_get, IfOk, OnOk, OnErr};
ghost use Rattle.dbus_wire.specs.Appending.{Keeps};
ghost use Rattle.dbus_wire.specs.Spelling.{spellings};
ghost use Rattle.dbus_wire.specs.TypeCodes.{types_codes};
ghost use Rattle.dbus_held.specs.Lending.{lent_value, shown};
ghost use Rattle.dbus_msg.specs.Bodies.{values_in};

use dbus_held::{Held, Lent};
use dbus_wire::{Endian, Packed, Value, push_types, push_values};
use fw_base::{Memory, TryCopy};
use sqlite_items::Items;
use std::alloc::Global;
use std::marker::Model;

/// How the values of a body are held: as the bytes that spelled them, or each in its own form.
#[derive(Drop)]
pub enum Form {
    Held(Held),
    Values(Items<Value>),
}

/// The values of a message's body, one after the other. Those of a message that was read are held as the bytes that
/// spelled them, a byte for each. Contracts see the values.
#[derive(Drop)]
pub struct Body {
    form: Form,
}

impl Model for Body {
    ghost use Rattle.std.specs.Prelude.{List};
    ghost use Rattle.std.specs.Coded.{codes};
    ghost use Rattle.dbus_wire.specs.contracts.value.Value as spelt;
    ghost use Rattle.dbus_wire.specs.declared.value.Value.{Value as Spelt};
    ghost use Rattle.dbus_msg.specs.Bodies.{values_in};

    ghost Value = { List Spelt };

    ghost coded = { Prim.hlevel (codes, spelt.the_row.coded) };

    ghost view = { λ body. values_in body.form };
}

/// The values, each in its own form.
fn values_of(alloc: Global, form: &Form) -> Result<Items<Value>, Memory>
    ensures { IfOk result (λ values. values ≡ values_in form.now) }
{
    match form {
        Form::Held(held) => held.values(),
        Form::Values(values) => Ok(Items::from_vec(Value::copy_all(alloc, values.as_slice())?)),
    }
}

/// A value that is at hand: a text, an object path and an array of bytes lent, any other copied.
fn lent_of(alloc: Global, value: &Value) -> Result<Lent<'_>, Memory>
    ensures { IfOk result (λ lent. lent_value lent ≡ value.now) }
{
    match value {
        Value::Str(text) => Ok(Lent::Text(text.as_str())),
        Value::Path(path) => Ok(Lent::Path(path.as_str())),
        Value::Packed(Packed::Bytes(bytes)) => Ok(Lent::Bytes(bytes.as_slice())),
        _ => Ok(Lent::Own(value.copy(alloc)?)),
    }
}

/// The value at a place of those at hand.
fn lent_at(alloc: Global, values: &[Value], place: usize) -> Result<Option<Lent<'_>>, Memory>
    ensures { IfOk result (λ found. shown found ≡ slice_get values.now place) }
{
    match values.get(place) {
        Some(value) => Ok(Some(lent_of(alloc, value)?)),
        None => Ok(None),
    }
}

/// The value at a place.
fn lent_in(alloc: Global, form: &Form, place: usize) -> Result<Option<Lent<'_>>, Memory>
    ensures { IfOk result (λ found. shown found ≡ slice_get (values_in form.now) place) }
{
    match form {
        Form::Held(held) => held.lent(place),
        Form::Values(values) => lent_at(alloc, values.as_slice(), place),
    }
}

/// Whether there is none.
fn holds_none(form: &Form) -> bool
    ensures { IsTrue result ↔ (values_in form.now ≡ []) }
{
    match form {
        Form::Held(held) => held.is_empty(),
        Form::Values(values) => values.is_empty(),
    }
}

/// Appends the codes of the types of the values.
#[tactic(auto, using(dbus_wire::proofs::KeepsLaws::keeping))]
fn push_codes(out: &mut Vec<u8>, form: &Form) -> Result<(), Memory>
    ensures ok { OnOk result (out.new.items ≡ out.old.items ++ types_codes (values_in form.now)) }
    ensures err { OnErr result (Keeps out.old.items out.new.items) }
{
    match form {
        Form::Held(held) => {
            out.extend_from_slice(held.codes())?;
            Ok(())
        }
        Form::Values(values) => push_types(out, values.as_slice()),
    }
}

/// Appends the spellings of the values.
#[tactic(auto, using(dbus_wire::proofs::KeepsLaws::keeping))]
fn push_form(out: &mut Vec<u8>, origin: usize, endian: Endian, form: &Form) -> Result<(), Memory>
    requires origin { origin ≤ length out.old.items }
    requires short { length (spellings endian (values_in form.now) (length out.old.items - origin)) < 2 ^ 32 }
    ensures ok { OnOk result (out.new.items ≡ out.old.items ++ spellings endian (values_in form.now) (length out.old.items - origin)) }
    ensures err { OnErr result (Keeps out.old.items out.new.items) }
{
    match form {
        Form::Held(held) => held.push(out, origin, endian),
        Form::Values(values) => push_values(out, origin, endian, values.as_slice()),
    }
}

impl Body {
    /// A body of these values.
    pub fn of(values: Items<Value>) -> Body
        ensures { result ≡ values }
    {
        Body {
            form: Form::Values(values),
        }
    }

    /// A body of values that are held.
    pub fn held(held: Held) -> Body
        ensures { result ≡ held }
    {
        Body {
            form: Form::Held(held),
        }
    }

    /// The values, each in its own form.
    pub fn values(&self, alloc: Global) -> Result<Items<Value>, Memory>
        ensures { IfOk result (λ values. values ≡ self.now) }
    {
        values_of(alloc, &self.form)
    }

    /// The value at a place, if there are so many: a text, an object path and an array of bytes lent, any other in its own
    /// form.
    pub fn lent(&self, alloc: Global, place: usize) -> Result<Option<Lent<'_>>, Memory>
        ensures { IfOk result (λ found. shown found ≡ slice_get self.now place) }
    {
        lent_in(alloc, &self.form, place)
    }

    /// Whether there is none.
    pub fn is_empty(&self) -> bool
        ensures { IsTrue result ↔ (self.now ≡ []) }
    {
        holds_none(&self.form)
    }

    /// Appends the codes of the types of the values. What is refused for want of memory leaves the old bytes in front.
    pub fn push_codes(&self, out: &mut Vec<u8>) -> Result<(), Memory>
        ensures ok { OnOk result (out.new.items ≡ out.old.items ++ types_codes self.now) }
        ensures err { OnErr result (Keeps out.old.items out.new.items) }
    {
        push_codes(out, &self.form)
    }

    /// Appends the spellings of the values, at offsets that count from the origin. What is refused for want of memory
    /// leaves the old bytes in front.
    pub fn push(&self, out: &mut Vec<u8>, origin: usize, endian: Endian) -> Result<(), Memory>
        requires origin { origin ≤ length out.old.items }
        requires short { length (spellings endian self.now (length out.old.items - origin)) < 2 ^ 32 }
        ensures ok { OnOk result (out.new.items ≡ out.old.items ++ spellings endian self.now (length out.old.items - origin)) }
        ensures err { OnErr result (Keeps out.old.items out.new.items) }
    {
        push_form(out, origin, endian, &self.form)
    }
}
