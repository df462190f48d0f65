//! The types of D-Bus values (D-Bus Specification, "Type System").

use sqlite_items::{Boxed, Items};

/// A type whose values hold no others: the fixed types and the texts.
#[derive(Clone, Copy, Debug, PartialEq, Eq)]
pub enum Basic {
    Byte,
    Bool,
    I16,
    U16,
    I32,
    U32,
    I64,
    U64,
    Double,
    Str,
    Path,
    Sig,
    Fd,
}

/// One complete type. A dict is an array of entries, each of a key and a value.
#[derive(Drop)]
pub enum Kind {
    Basic(Basic),
    Variant,
    Array(Boxed<Kind>),
    Dict(Basic, Boxed<Kind>),
    Struct(Items<Kind>),
}
