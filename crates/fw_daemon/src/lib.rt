//! The daemon in one thread: its settings, its journal, what it installs and what it keeps.
#![tactic(auto)]

mod acting;
mod daemon;
mod installing;
mod opening;
mod saving;

pub use daemon::{Closed, Daemon, NotOpened};
pub use opening::OpenError;
