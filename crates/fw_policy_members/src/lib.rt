//! What the daemon answers to calls on policies, and what they make of its settings (firewalld.dbus(5), interface
//! `org.fedoraproject.FirewallD1.policy`).
#![tactic(auto)]

mod active;
mod asking;
mod find;
mod laws;
mod texts;
mod update;

pub use asking::{active_policies_member, policies_member, policy_settings_member};
pub use laws::policies_keep_the_rules;
pub use update::set_policy_settings_member;
