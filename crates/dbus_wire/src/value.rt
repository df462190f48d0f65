//! The values that messages hold (D-Bus Specification, "Type System").

use dbus_signature::Signature;
use fw_base::Text;
use sqlite_items::{Boxed, Items};

/// The order of a number's bytes.
#[derive(Clone, Copy, Debug, PartialEq, Eq)]
pub enum Endian {
    Little,
    Big,
}

/// The elements of an array of a fixed basic type, packed: numbers in a row, each in as much memory as its type needs.
#[derive(Drop)]
pub enum Packed {
    Bytes(Items<u8>),
    Bools(Items<bool>),
    I16s(Items<i16>),
    U16s(Items<u16>),
    I32s(Items<i32>),
    U32s(Items<u32>),
    I64s(Items<i64>),
    U64s(Items<u64>),
    /// The bits of IEEE 754 doubles.
    Doubles(Items<u64>),
    /// Indexes into the file descriptors that come with a message.
    Fds(Items<u32>),
}

/// A value of some type.
#[derive(Drop)]
pub enum Value {
    Byte(u8),
    Bool(bool),
    I16(i16),
    U16(u16),
    I32(i32),
    U32(u32),
    I64(i64),
    U64(u64),
    /// The bits of an IEEE 754 double.
    Double(u64),
    Str(Text),
    /// An object path.
    Path(Text),
    Sig(Signature),
    /// An index into the file descriptors that come with a message.
    Fd(u32),
    /// An array of a fixed basic type, as `ay`.
    Packed(Packed),
    /// An array of any other type: its type, as `as` or `a{sv}`, and its elements.
    Array(Signature, Items<Value>),
    Struct(Items<Value>),
    /// An entry of a dict: its key and its value.
    Pair(Boxed<Value>, Boxed<Value>),
    /// The type of the value, and the value.
    Variant(Signature, Boxed<Value>),
}
