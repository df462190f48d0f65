//! What the members of the interface `org.fedoraproject.FirewallD1` answer, and what they make of the settings (firewalld.dbus(5)).
#![tactic(auto)]

mod asking;
mod changing;
mod log_denied;
mod numbering;
mod reloading;
mod signals;

pub use asking::{default_zone_member, log_denied_member, panic_mode_member, services_member};
pub use changing::{
    disable_panic_member, enable_panic_member, reload_member, set_default_zone_member,
    set_log_denied_member,
};
pub use numbering::to_permanent_member;
