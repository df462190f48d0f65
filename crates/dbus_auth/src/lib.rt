//! The server's side of the D-Bus authentication protocol, line by line, with the one mechanism EXTERNAL
//! (D-Bus Specification, "Authentication Protocol").
#![tactic(auto)]

mod answer;
mod auth;
mod identity;
mod laws;

pub use answer::{AuthAnswer, AuthEnd, Stage};
pub use auth::{Auth, guid};
pub use laws::the_tenth_rejection_ends;
