//! Rows of `fw_input`: inputs cut into lines, at their limits and with reads that fail.
#![tactic(auto)]

#[cfg(test)]
mod lines;
