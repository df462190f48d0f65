//! Copies of values.

ghost use Rattle.std.specs.Prelude.{◌≡◌, IfOk};

use crate::packed::copy_packed;
use crate::value::Value;
use fw_base::{Memory, TryCopy};
use sqlite_items::{Boxed, Items};
use std::alloc::Global;

impl TryCopy for Value {
    fn copy(&self, alloc: Global) -> Result<Value, Memory> {
        copy_value(alloc, self)
    }
}

#[cycle(copying)]
fn copy_value(alloc: Global, value: &Value) -> Result<Value, Memory>
    ensures { IfOk result (λ copied. copied ≡ value.now) }
{
    Ok(match value {
        Value::Byte(byte) => Value::Byte(*byte),
        Value::Bool(truth) => Value::Bool(*truth),
        Value::I16(number) => Value::I16(*number),
        Value::U16(number) => Value::U16(*number),
        Value::I32(number) => Value::I32(*number),
        Value::U32(number) => Value::U32(*number),
        Value::I64(number) => Value::I64(*number),
        Value::U64(number) => Value::U64(*number),
        Value::Double(bits) => Value::Double(*bits),
        Value::Str(text) => Value::Str(text.copy(alloc)?),
        Value::Path(text) => Value::Path(text.copy(alloc)?),
        Value::Sig(signature) => Value::Sig(signature.copy(alloc)?),
        Value::Fd(number) => Value::Fd(*number),
        Value::Packed(elements) => Value::Packed(copy_packed(alloc, elements)?),
        Value::Array(signature, items) => {
            let signature = signature.copy(alloc)?;
            Value::Array(signature, copy_all(alloc, items.as_slice())?)
        }
        Value::Struct(members) => Value::Struct(copy_all(alloc, members.as_slice())?),
        Value::Pair(key, inner) => {
            let key = Boxed::new(alloc, copy_value(alloc, key.get())?)?;
            let inner = Boxed::new(alloc, copy_value(alloc, inner.get())?)?;
            Value::Pair(key, inner)
        }
        Value::Variant(signature, inner) => {
            let signature = signature.copy(alloc)?;
            let inner = Boxed::new(alloc, copy_value(alloc, inner.get())?)?;
            Value::Variant(signature, inner)
        }
    })
}

#[cycle(copying)]
fn copy_all(alloc: Global, values: &[Value]) -> Result<Items<Value>, Memory>
    ensures { IfOk result (λ copied. copied ≡ values.now) }
{
    let mut copied = Items::new(alloc);
    for value in values {
        copied.push(copy_value(alloc, value)?)?;
    }
    Ok(copied)
}
