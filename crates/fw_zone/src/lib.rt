//! The settings of zones one by one, and the interfaces and sources that belong to them.
#![tactic(auto)]

mod bindings;
mod entries;
mod interfaces;
mod lists;
mod same;
mod settings;
mod sources;

pub use bindings::BindError;
pub use fw_model::Setting;
pub use interfaces::{bind_iface, move_iface, unbind_iface, zone_of_iface};
pub use lists::{add_item, contains, place_of, remove_item};
pub use same::Same;
pub use settings::{AddError, NotEnabled, add, has, remove};
pub use sources::{bind_source, move_source, unbind_source, zone_of_source};
