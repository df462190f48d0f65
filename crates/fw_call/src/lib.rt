//! The calls that a script may make: the members of firewalld's D-Bus interfaces as one table, and their arguments.
#![tactic(auto)]

mod call;
mod calls;
mod ipset;
mod member;

pub use call::{BindingWord, Call, EntriesCall, IpsetCall, Request, SettingWords, ZoneCall};
pub use calls::read_call;
pub use member::{BindingKind, Member, SettingKind, Verb};
