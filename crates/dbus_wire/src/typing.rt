//! Writes the types of values.

ghost use Rattle.std.specs.Prelude.{◌≡◌, ◌++◌, OnOk, OnErr};
ghost use Rattle.dbus_wire.specs.Appending.{Keeps};
ghost use Rattle.dbus_wire.specs.TypeCodes.{type_codes, types_codes};

use crate::value::Value;
use fw_base::Memory;

/// Appends the codes of a value's type.
#[cycle(typing)]
#[tactic(auto, using(crate::proofs::TypeLaws::typed, crate::proofs::KeepsLaws::keeping))]
fn push_type(out: &mut Vec<u8>, value: &Value) -> Result<(), Memory>
    ensures ok { OnOk result (out.new.items ≡ out.old.items ++ type_codes value.now) }
    ensures err { OnErr result (Keeps out.old.items out.new.items) }
{
    match value {
        Value::Byte(_) => out.push(b'y')?,
        Value::Bool(_) => out.push(b'b')?,
        Value::I16(_) => out.push(b'n')?,
        Value::U16(_) => out.push(b'q')?,
        Value::I32(_) => out.push(b'i')?,
        Value::U32(_) => out.push(b'u')?,
        Value::I64(_) => out.push(b'x')?,
        Value::U64(_) => out.push(b't')?,
        Value::Double(_) => out.push(b'd')?,
        Value::Str(_) => out.push(b's')?,
        Value::Path(_) => out.push(b'o')?,
        Value::Sig(_) => out.push(b'g')?,
        Value::Fd(_) => out.push(b'h')?,
        Value::Packed(elements) => {
            out.push(b'a')?;
            out.push(elements.basic().code())?;
        }
        Value::Array(signature, _) => out.extend_from_slice(signature.as_bytes())?,
        Value::Struct(members) => {
            out.push(b'(')?;
            push_types(out, members.as_slice())?;
            out.push(b')')?;
        }
        Value::Pair(key, inner) => {
            out.push(b'{')?;
            push_type(out, key.get())?;
            push_type(out, inner.get())?;
            out.push(b'}')?;
        }
        Value::Variant(_, _) => out.push(b'v')?,
    }
    Ok(())
}

/// Appends the codes of the types of values one after the other. What is refused for want of memory leaves the old bytes
/// in front.
#[cycle(typing)]
#[tactic(auto, using(crate::proofs::KeepsLaws::keeping))]
pub fn push_types(out: &mut Vec<u8>, values: &[Value]) -> Result<(), Memory>
    ensures ok { OnOk result (out.new.items ≡ out.old.items ++ types_codes values.now) }
    ensures err { OnErr result (Keeps out.old.items out.new.items) }
{
    for value in values {
        push_type(out, value)?;
    }
    Ok(())
}
