//! The settings machine: what every call, tick, event of a link and session does to the settings of the daemon, with its reply, its
//! signals and what is to be saved and committed for it (firewalld.dbus(5)).
#![tactic(auto)]

mod calls;
mod configs;
mod machine;
mod objects;
mod policies;
mod roots;
mod zones;

pub use machine::step;
