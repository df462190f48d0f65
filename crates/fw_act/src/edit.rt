//! Edits of settings, which may be refused.
use fw_model::Code;

/// Why settings aren't changed.
#[derive(Clone, Copy, Debug, PartialEq, Eq)]
pub enum EditError {
    /// The edit is refused.
    Refused(Code),
    /// No memory was found.
    Memory,
}
