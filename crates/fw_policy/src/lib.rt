//! Which policies there can be (firewalld.policies(5), firewalld.policy(5)).
#![tactic(auto)]

mod fault;
mod laws;
mod rules;
mod sides;

pub use fault::Fault;
pub use laws::a_policy_without_faults_is_valid;
pub use rules::{first_fault, policy_fault};
pub use sides::{ANY, HOST};
