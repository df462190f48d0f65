//! D-Bus signatures: texts that spell types, read exactly by the grammar of the D-Bus Specification.
#![tactic(auto)]

mod cursor;
mod error;
mod kind;
mod kinds;
mod laws;
mod letters;
mod signature;
mod spelling;

pub use cursor::Cursor;
pub use error::WireError;
pub use kind::{Basic, Kind};
pub use kinds::{kinds_at, one_kind_at};
pub use laws::a_signature_fault_is_the_first;
pub use signature::{Signature, read_signature};
