//! Arguments of calls, before it's said of which.
use super::Dict;
use fw_base::{Seq, Text};

/// A value of a call's arguments.
#[derive(Drop)]
pub enum Argument {
    /// The number of an object of the permanent settings, which stands in its path.
    Number(u64),
    /// A text: `s`.
    Text(Text),
    /// A number: `i`.
    Int(i32),
    /// A list of texts: `as`.
    Texts(Seq<Text>),
    /// A dict of settings: `a{sv}`.
    Dict(Dict),
}
