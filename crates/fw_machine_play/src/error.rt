//! Why a line isn't played.
use fw_base::Memory;
use fw_restore::ConfigError;
use fw_words::LineError;

/// Why a line isn't played.
#[derive(Debug, Drop)]
pub enum PlayError {
    /// It is no line of this language.
    BadLine,
    Memory,
}

impl From<Memory> for PlayError {
    fn from(_error: Memory) -> PlayError {
        PlayError::Memory
    }
}

impl From<LineError> for PlayError {
    fn from(error: LineError) -> PlayError {
        match error {
            LineError::BadLine => PlayError::BadLine,
            LineError::Memory => PlayError::Memory,
        }
    }
}

impl From<ConfigError> for PlayError {
    fn from(error: ConfigError) -> PlayError {
        match error {
            ConfigError::Memory => PlayError::Memory,
            ConfigError::Json | ConfigError::Field(_) | ConfigError::Rule(_) => PlayError::BadLine,
        }
    }
}
