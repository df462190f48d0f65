//! One value that any number of passes, in threads of their own, take in turn.
#![tactic(auto)]

mod journaled;
mod laws;
mod pass;
mod rule;
mod tried;
mod turn;
mod view;

pub use journaled::Journaled;
pub use laws::history_stands;
pub use pass::Pass;
pub use tried::Tried;
pub use turn::Turn;
pub use view::Knowledge;
