//! What a ruleset with many chains makes of a packet, as nft(8) describes the evaluation of hooks, chains and rules.
#![tactic(auto)]

mod course;
mod effect;
mod evaluation;
mod flow;
mod hook;
mod journal;
mod laws;
mod map;
mod run;
mod scene;
mod test;
mod way;

pub use evaluation::{eval, eval_uncounted, eval_verdict};
pub use laws::{outcome_is_unique, visits_are_unique};
