//! Edits of a zone keep a configuration valid: a setting, an interface or a source that comes or goes, and the inversion of its ICMP
//! blocks.
#![tactic(auto)]

mod laws;

pub use laws::{
    added_setting_keeps_valid, bound_entry_keeps_valid, inversion_keeps_valid,
    removed_setting_keeps_valid, unbound_entry_keeps_valid,
};
