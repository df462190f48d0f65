//! The chains that packets meet at the hooks: what all of them meet, then the bindings of zones, then policies and the settings of zones
//! in their order, as firewalld's manuals have it.
#![tactic(auto)]

mod chains;
mod denied;
mod early;
mod forward;
mod input;
mod laws;
mod names;
mod output;
mod policies;
mod rules;
mod target;

pub use chains::{forward_chains, input_chains, output_chains};
pub use input::has_walk;
pub use laws::{hooks_decide, one_runs_at_each_hook};
pub use policies::has_settings;
