//! What dicts make of zones and policies fits a valid configuration.
#![tactic(auto)]

mod laws;

pub use laws::{dicts_make_fit_policies, dicts_make_fit_zones, new_zones_fit};
