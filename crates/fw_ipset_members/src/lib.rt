//! What the daemon answers to calls on ipsets, and what they make of its settings (firewalld.dbus(5), interface
//! `org.fedoraproject.FirewallD1.ipset`).
#![tactic(auto)]

mod edits;
mod entries;
mod find;
mod items;
mod member;
mod replace;
mod texts;
mod told;

pub use member::{ask_ipset, ipset_member};
