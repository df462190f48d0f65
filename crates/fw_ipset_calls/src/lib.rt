//! What the calls on ipsets answer, and what they change.
#![tactic(auto)]

mod answer;
mod edits;
mod entries;
mod find;
mod items;
mod replace;
mod texts;

pub use answer::answer_call;
