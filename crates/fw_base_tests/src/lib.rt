//! Tests of `fw_base`: its values, its ends in memory, and its adapters over readers and writers of std that fail.
#![tactic(auto)]

#[cfg(test)]
mod ends;
#[cfg(test)]
mod values;
