//! What the calls on zones answer, and what they change.
#![tactic(auto)]

mod active;
mod answer;
mod binding;
mod bound;
mod entry;
mod inversion;
mod rich;
mod setting;
mod settings;
mod texts;
mod told;
mod zones;

pub use answer::answer_call;
