//! Reads values that hold no others.

ghost use Rattle.std.specs.Prelude.{◌≡◌};
ghost use Rattle.dbus_signature.specs.Cursors.{read_at, seen};
ghost use Rattle.dbus_signature.specs.Reading.{Gives};
ghost use Rattle.dbus_wire.specs.Values.{basic_value_at};

use crate::fields::{bool_at, byte_at, u16_at, u32_at, u64_at};
use crate::strings::{StringKind, signature_at, string_at};
use crate::value::{Endian, Value};
use dbus_signature::{Basic, Cursor, WireError};
use std::alloc::Global;

/// A value that holds no others.
pub fn basic_value_at(
    alloc: Global,
    endian: Endian,
    basic: Basic,
    from: Cursor<'_>,
) -> Result<(Value, Cursor<'_>), WireError>
    ensures { Gives seen result (read_at (basic_value_at endian basic) from.entry) }
{
    match basic {
        Basic::Byte => {
            let (byte, after) = byte_at(from)?;
            Ok((Value::Byte(byte), after))
        }
        Basic::Bool => {
            let (truth, after) = bool_at(endian, from)?;
            Ok((Value::Bool(truth), after))
        }
        Basic::I16 => {
            let (number, after) = u16_at(endian, from)?;
            Ok((Value::I16(number.cast_signed()), after))
        }
        Basic::U16 => {
            let (number, after) = u16_at(endian, from)?;
            Ok((Value::U16(number), after))
        }
        Basic::I32 => {
            let (number, after) = u32_at(endian, from)?;
            Ok((Value::I32(number.cast_signed()), after))
        }
        Basic::U32 => {
            let (number, after) = u32_at(endian, from)?;
            Ok((Value::U32(number), after))
        }
        Basic::I64 => {
            let (number, after) = u64_at(endian, from)?;
            Ok((Value::I64(number.cast_signed()), after))
        }
        Basic::U64 => {
            let (number, after) = u64_at(endian, from)?;
            Ok((Value::U64(number), after))
        }
        Basic::Double => {
            let (bits, after) = u64_at(endian, from)?;
            Ok((Value::Double(bits), after))
        }
        Basic::Str => {
            let (text, after) = string_at(alloc, endian, StringKind::Text, from)?;
            Ok((Value::Str(text), after))
        }
        Basic::Path => {
            let (text, after) = string_at(alloc, endian, StringKind::Path, from)?;
            Ok((Value::Path(text), after))
        }
        Basic::Sig => {
            let (signature, after) = signature_at(alloc, from)?;
            Ok((Value::Sig(signature), after))
        }
        Basic::Fd => {
            let (number, after) = u32_at(endian, from)?;
            Ok((Value::Fd(number), after))
        }
    }
}
