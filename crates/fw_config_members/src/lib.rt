//! What the members of the interface `org.fedoraproject.FirewallD1.config` answer, and what they make of the permanent settings
//! (firewalld.dbus(5)).
#![tactic(auto)]

mod adding;
mod asking;
mod named;
mod paths;

pub use adding::{add_policy_member, add_zone_member};
pub use asking::{
    policy_by_name_member, policy_names_member, zone_by_name_member, zone_names_member,
};
pub use paths::{policy_path, zone_path};
