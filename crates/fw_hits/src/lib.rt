//! Which packets the settings of zones and policies are about, and to which zone a packet belongs.
#![tactic(auto)]

mod bindings;
mod hits;
mod interfaces;
mod rich;
mod services;
mod sources;

pub use bindings::{egress, ingress};
pub use hits::{any_icmp, any_port, any_protocol, any_source_port, is_icmp};
pub use rich::hits_rich;
pub use services::{any_service, service_hits};
