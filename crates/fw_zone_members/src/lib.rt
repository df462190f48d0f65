//! What the daemon answers to calls on zones, and what they make of its settings (firewalld.dbus(5), interface
//! `org.fedoraproject.FirewallD1.zone`): settings of zones, timed ones among them, interfaces and sources, and queries.
#![tactic(auto)]

mod asking;
mod bindings;
mod edits;
mod entry;
mod flags;
mod inversion;
mod port;
mod reading;
mod rich;
mod setting;
mod settings;
mod told;

pub use asking::{active_zones_member, is_active, zone_settings_member, zones_member};
pub use bindings::{binding_member, query_binding, zone_of_member};
pub use entry::{read_interface, read_source};
pub use flags::{interface_flag, setting_flag};
pub use inversion::{inversion_member, query_inversion};
pub use port::{read_forward, read_port};
pub use reading::find_zone;
pub use rich::read_rule;
pub use setting::{read_icmp, read_protocol, read_service};
pub use settings::{query_setting, setting_member};
