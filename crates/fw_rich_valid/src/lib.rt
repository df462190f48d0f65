//! What is read of the text of a rich rule is a rule.
#![tactic(auto)]

mod laws;

pub use laws::texts_say_rules;
