//! What a compiler of settings to rulesets owes: rulesets that can be installed and that do with every packet what the settings say.
#![tactic(auto)]

mod compiler;
mod laws;

pub use compiler::Compiler;
pub use laws::outcomes_are_the_way;
