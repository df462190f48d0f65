//! Transactions on rulesets, what installs them, and a kernel that does so in memory.
#![tactic(auto)]

mod apply;
mod backend;
mod kernel;
mod part;
mod sim_kernel;
mod tx;

pub use apply::{applied, fits};
pub use backend::Backend;
pub use kernel::Ready;
pub use sim_kernel::SimKernel;
pub use tx::Tx;
