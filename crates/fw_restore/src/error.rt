//! Why a text isn't accepted as permanent settings.
ghost use Rattle.std.specs.Prelude.{◌≡◌};
ghost use Rattle.fw_restore.specs.declared.error.ConfigError.TheVariants.{Memory as OutOfMemory};

use fw_base::{Memory, Text};
use fw_broken::Rule;

/// The first fault in a text of the permanent settings.
#[derive(Debug, Drop)]
pub enum ConfigError {
    /// It is no JSON text.
    Json,
    /// A key is missing or unknown, or a value isn't one of its key's, by the path there, such as `zones[2].ports[0]`. It is empty where the
    /// text is no object.
    Field(Text),
    /// The configuration breaks a rule; this is the first.
    Rule(Rule),
    Memory,
}

impl From<Memory> for ConfigError {
    ghost from_gives = { λ _ error. error ≡ OutOfMemory };

    fn from(_error: Memory) -> ConfigError {
        ConfigError::Memory
    }
}
