//! Values of D-Bus held as the bytes that spell them.
#![tactic(auto)]

mod ends;
mod fields;
mod held;
mod laws;
mod lent;
mod strings;

pub use ends::{Context, head_at, value_end};
pub use fields::{padding_at, u32_at};
pub use held::{Held, read_held};
pub use laws::{eights_apart_is_the_same, values_end_where_they_are_read};
pub use lent::Lent;
pub use strings::{Holds, byte_at, front_of, signature_at, string_at, type_end};
