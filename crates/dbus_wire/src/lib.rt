//! D-Bus values as bytes, in both byte orders: read and written exactly by the D-Bus Specification's marshalling.
#![tactic(auto)]

mod alignment;
mod arrays;
mod basics;
mod containers;
mod copying;
mod fields;
mod fixed;
mod laws;
mod numbers;
mod packed;
mod read;
mod showing;
mod strings;
mod texts;
mod typing;
mod value;
mod writing;

pub use dbus_signature::{Signature, WireError, read_signature};
pub use laws::{
    a_fault_where_nothing_is_spelt, no_spelling_begins_another, read_is_written_again,
    written_is_read,
};
pub use numbers::{push_padding, push_text, push_u32, set_u32};
pub use read::{read_value, read_values};
pub use typing::push_types;
pub use value::{Endian, Packed, Value};
pub use writing::{push_values, write_value};
