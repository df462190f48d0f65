//! What the members of the interfaces `org.fedoraproject.FirewallD1.config.zone` and `org.fedoraproject.FirewallD1.config.policy` answer,
//! and what they make of the permanent settings (firewalld.dbus(5)).
#![tactic(auto)]

mod built_in;
mod object;
mod policy;
mod zone;

pub use policy::{policy_settings_member, remove_policy_member, update_policy_member};
pub use zone::{remove_zone_member, update_zone_member, zone_settings_member};
