//! What a client is told of events: signals, replies, ticks and links, as lines of a script's output.
#![tactic(auto)]

mod dicts;
mod lines;
mod part;
mod replies;
mod values;

pub use lines::{push_link, push_signal, push_tick, push_unfit};
pub use replies::push_reply;
