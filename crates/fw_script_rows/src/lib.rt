//! Runs of the program over ends that hold their bytes, as tests: which end is blamed, and what was written by then.
#![tactic(auto)]

#[cfg(test)]
mod runs;
#[cfg(test)]
mod told;
