//! What the firewall has from the start.
#![tactic(auto)]

mod configs;
mod known;
mod services;
mod texts;
mod zones;

pub use configs::built_in_config;
pub use known::knows;
pub use services::built_in_services;
pub use zones::built_in_zones;
