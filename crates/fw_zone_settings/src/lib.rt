//! All settings of a zone in force at once (firewalld.dbus(5), interface `org.fedoraproject.FirewallD1.zone`, `setZoneSettings2`).
#![tactic(auto)]

mod laws;
mod member;
mod timers;
mod update;

pub use laws::timers_are_of_settings_in_force;
pub use member::set_zone_settings_member;
