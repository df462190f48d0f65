//! The entries of sets of addresses (firewalld.ipset(5)): read, added, taken out, asked for and replaced.
#![tactic(auto)]

mod edits;
mod error;
mod fit;
mod left;
mod once;
mod read;
mod replace;

pub use edits::{add_item, has_item, remove_item};
pub use error::SetError;
pub use fit::fits;
pub use left::lacking;
pub use once::keep_once;
pub use read::read_item;
pub use replace::replace_items;
