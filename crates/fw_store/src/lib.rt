//! The permanent settings as JSON text (RFC 8259), each of their values by its canonical text.
#![tactic(auto)]

mod config;
mod lists;
mod objects;
mod single;
mod stored;

pub use config::config_to_text;
