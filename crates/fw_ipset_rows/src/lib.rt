//! Rows of `fw_ipset`: entries of each kind of set, and each edit with its refusals.
#![tactic(auto)]

#[cfg(test)]
mod edits;
#[cfg(test)]
mod entries;
#[cfg(test)]
mod sets;
