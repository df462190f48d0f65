//! Which rulesets are sound: what their rules name is there, once, in order, and leads nowhere without end.
#![tactic(auto)]

mod links;
mod named;
mod sound;
mod stands;
mod target;

pub use links::MAX_LINKS;
pub use named::{chain_called, map_called};
pub use sound::is_sound;
