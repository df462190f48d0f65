//! The permanent settings from their JSON text (RFC 8259), or the first fault in it.
#![tactic(auto)]

mod error;
mod restore;

pub use error::ConfigError;
pub use restore::config_from_text;
