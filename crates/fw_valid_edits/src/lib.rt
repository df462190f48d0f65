//! Zones and policies come to a valid configuration, change and go, and it stays valid.
#![tactic(auto)]

mod policies;
mod zones;

pub use policies::{
    added_policy_keeps_valid, changed_policy_keeps_valid, policies_fit, removed_policy_keeps_valid,
};
pub use zones::{
    added_zone_keeps_valid, changed_zone_keeps_valid, removed_zone_keeps_valid, zones_fit,
};
