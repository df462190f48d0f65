//! Keepers of one text, such as the permanent settings: in memory, and in a file.
#![tactic(auto)]

mod file_keeper;
mod keeper;
mod list_keeper;
mod replace;

pub use file_keeper::FileKeeper;
pub use keeper::{KeepError, Keeper};
pub use list_keeper::ListKeeper;
