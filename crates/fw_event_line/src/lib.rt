//! Lines of a script that are events of the settings machine: calls of firewalld's members (firewalld.dbus(5)), ticks and links.
#![tactic(auto)]

mod arguments;
mod asked;
mod calls;
mod dict;
mod events;
mod line;

pub use asked::Asked;
pub use events::read_event;
pub use line::EventLine;
