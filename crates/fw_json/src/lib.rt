//! Arguments of calls that scripts spell in JSON (RFC 8259).
#![tactic(auto)]

mod texts;

pub use texts::read_texts;
