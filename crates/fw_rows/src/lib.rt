//! Configurations by hand-made lines: what tables of rows are written in, where a script has no call for it. A line may also make a
//! configuration that isn't valid.
#![tactic(auto)]

mod ipsets;
mod line;
mod settings;
mod zones;

pub use line::edit;
