//! Values as text, for tests and messages to people.

use crate::value::{Packed, Value};
use dbus_signature::Signature;
use std::fmt;

impl fmt::Debug for Value {
    fn fmt<W: fmt::Write>(&self, f: &mut fmt::Formatter<W>) -> fmt::Result {
        show(self, f)
    }
}

#[cycle(showing)]
fn show<W: fmt::Write>(value: &Value, f: &mut fmt::Formatter<W>) -> fmt::Result {
    match value {
        Value::Byte(byte) => write!(f, "Byte({byte})"),
        Value::Bool(truth) => write!(f, "Bool({truth})"),
        Value::I16(number) => write!(f, "I16({number})"),
        Value::U16(number) => write!(f, "U16({number})"),
        Value::I32(number) => write!(f, "I32({number})"),
        Value::U32(number) => write!(f, "U32({number})"),
        Value::I64(number) => write!(f, "I64({number})"),
        Value::U64(number) => write!(f, "U64({number})"),
        Value::Double(bits) => write!(f, "Double({bits:#x})"),
        Value::Fd(number) => write!(f, "Fd({number})"),
        Value::Str(text) => show_text("Str", text.as_str(), f),
        Value::Path(text) => show_text("Path", text.as_str(), f),
        Value::Sig(signature) => show_text("Sig", codes(signature), f),
        Value::Packed(elements) => show_packed(elements, f),
        Value::Array(signature, items) => {
            show_text("Array", codes(signature), f)?;
            show_all(items.as_slice(), f)
        }
        Value::Struct(members) => {
            write!(f, "Struct")?;
            show_all(members.as_slice(), f)
        }
        Value::Pair(key, inner) => {
            write!(f, "Pair ")?;
            show(key.get(), f)?;
            write!(f, ": ")?;
            show(inner.get(), f)
        }
        Value::Variant(signature, inner) => {
            show_text("Variant", codes(signature), f)?;
            write!(f, " ")?;
            show(inner.get(), f)
        }
    }
}

/// Packed elements, as the values that they are.
fn show_packed<W: fmt::Write>(packed: &Packed, f: &mut fmt::Formatter<W>) -> fmt::Result {
    match packed {
        Packed::Bytes(bytes) => show_row("ay", "Byte", bytes.as_slice(), f),
        Packed::Bools(truths) => show_row("ab", "Bool", truths.as_slice(), f),
        Packed::I16s(numbers) => show_row("an", "I16", numbers.as_slice(), f),
        Packed::U16s(numbers) => show_row("aq", "U16", numbers.as_slice(), f),
        Packed::I32s(numbers) => show_row("ai", "I32", numbers.as_slice(), f),
        Packed::U32s(numbers) => show_row("au", "U32", numbers.as_slice(), f),
        Packed::I64s(numbers) => show_row("ax", "I64", numbers.as_slice(), f),
        Packed::U64s(numbers) => show_row("at", "U64", numbers.as_slice(), f),
        Packed::Doubles(bits) => show_bits(bits.as_slice(), f),
        Packed::Fds(numbers) => show_row("ah", "Fd", numbers.as_slice(), f),
    }
}

/// Numbers one after the other, each behind its word, in brackets.
fn show_row<T: fmt::Display, W: fmt::Write>(
    codes: &str,
    word: &str,
    numbers: &[T],
    f: &mut fmt::Formatter<W>,
) -> fmt::Result {
    write!(f, "Array({codes}) [")?;
    for number in numbers {
        write!(f, "{word}({number});")?;
    }
    write!(f, "]")
}

/// The bits of doubles one after the other, in brackets.
fn show_bits<W: fmt::Write>(bits: &[u64], f: &mut fmt::Formatter<W>) -> fmt::Result {
    write!(f, "Array(ad) [")?;
    for double in bits {
        write!(f, "Double({double:#x});")?;
    }
    write!(f, "]")
}

/// Values one after the other, in brackets.
#[cycle(showing)]
fn show_all<W: fmt::Write>(values: &[Value], f: &mut fmt::Formatter<W>) -> fmt::Result {
    write!(f, " [")?;
    for value in values {
        show(value, f)?;
        write!(f, ";")?;
    }
    write!(f, "]")
}

/// A word and a text in parentheses.
fn show_text<W: fmt::Write>(word: &str, text: &str, f: &mut fmt::Formatter<W>) -> fmt::Result {
    write!(f, "{word}({text})")
}

/// The codes of a signature as text, which are letters and signs of ASCII.
fn codes(signature: &Signature) -> &str {
    str::from_utf8(signature.as_bytes()).unwrap_or("?")
}
