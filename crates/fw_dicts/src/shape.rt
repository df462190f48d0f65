//! Whose settings a dict says, and the types of its values.

/// Whose settings a dict says.
#[derive(Clone, Copy, Debug, PartialEq, Eq)]
pub enum Owner {
    Zone,
    Policy,
}

/// The type of a key's value.
#[derive(Clone, Copy, Debug, PartialEq, Eq)]
pub enum Shape {
    Text,
    Flag,
    Number,
    Texts,
    /// Rows, each of so many texts.
    Rows(usize),
}
