//! Edits of zones by the daemon: the settings, interfaces and sources of a zone by its place, settings that end by themselves, and the
//! texts and signals of all these.
#![tactic(auto)]

mod bound;
mod ending;
mod entry;
mod setting;
mod signal;
mod text;
mod zone;

pub use bound::{bind, move_to, unbind};
pub use ending::{end, end_all};
pub use entry::{Entry, source_text};
pub use setting::{add_at, has_setting, remove_at};
pub use signal::{
    added_signal, bound_kind, entry_signal, moved_kind, removed_signal, unbound_kind,
};
pub use text::{port_text, setting_text, to_address_text, to_port_text};
pub use zone::{FoundZone, zone_meant, zone_named};
