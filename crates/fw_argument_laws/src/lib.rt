//! What the arguments of calls spell is valid by itself.
#![tactic(auto)]

mod texts;

pub use texts::{entries_are_known, rules_are_known, settings_are_known};
