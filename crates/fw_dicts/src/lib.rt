//! Settings of zones and policies as dicts.
#![tactic(auto)]

mod bindings;
mod dict;
mod keys;
mod lists;
mod policy;
mod shape;
mod targets;
mod values;
mod zone;

pub use dict::{policy_dict, zone_dict};
pub use keys::{fits, shape_of, value_at};
pub use policy::{new_policy, read_policy};
pub use shape::{Owner, Shape};
pub use zone::{new_zone, read_zone, read_zone_at};
