//! Parts of the permanent settings as they are read from JSON (RFC 8259), or the way to the first fault in them.
#![tactic(auto)]

mod fields;
mod format;
mod lists;
mod names;
mod objects;
mod parts;
mod single;
mod stop;
mod texts;
mod told;

pub use fields::{field, known};
pub use stop::Stop;
pub use told::Told;
