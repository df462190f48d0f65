//! Rows of `fw_service` and `fw_closure`: the built-in configuration, and services that include others.
#![tactic(auto)]

#[cfg(test)]
mod built_in;
#[cfg(test)]
mod includes;
