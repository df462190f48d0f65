//! Calls on the firewall as a whole keep the settings of the daemon valid.
#![tactic(auto)]

mod laws;

pub use laws::{
    disable_panic_keeps_valid, enable_panic_keeps_valid, reload_keeps_valid,
    set_default_zone_keeps_valid, set_log_denied_keeps_valid, to_permanent_keeps_numbers,
    to_permanent_keeps_valid,
};
