//! Which configurations are valid.
#![tactic(auto)]

mod laws;

pub use laws::the_built_in_configuration_is_valid;
