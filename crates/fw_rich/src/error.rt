//! Why a text isn't a rich rule.
ghost use Rattle.std.specs.Prelude.{◌≡◌};
ghost use Rattle.fw_rich.specs.declared.error.ValueError.TheVariants.{Bad, Memory as OutOfMemory};

use fw_base::Memory;
use fw_model::Code;
use std::error::Error;
use std::fmt;

/// Why a text isn't read as a rich rule. Places count the bytes of the text from 0.
#[derive(Clone, Copy, Debug, PartialEq, Eq)]
pub enum RichError {
    /// The grammar isn't followed at this byte, or 0 where parts don't go together (INVALID_RULE).
    Rule(usize),
    /// The value that begins at this byte is refused for this reason.
    Part(Code, usize),
    /// An address or a forward port stands without a family (MISSING_FAMILY).
    MissingFamily,
    Memory,
}

impl fmt::Display for RichError {
    fn fmt<W: fmt::Write>(&self, f: &mut fmt::Formatter<W>) -> fmt::Result {
        match self {
            RichError::Rule(offset) => write!(f, "no rich rule: byte {offset}"),
            RichError::Part(code, offset) => {
                let name = code.name();
                write!(f, "{name}: byte {offset}")
            }
            RichError::MissingFamily => f.write_str("missing family"),
            RichError::Memory => f.write_str("out of memory"),
        }
    }
}

impl Error for RichError {}

/// A value that is refused, and where it begins, its quote included.
#[derive(Clone, Copy, Debug, PartialEq, Eq)]
pub struct BadValue {
    pub code: Code,
    pub place: usize,
}

/// Why a value isn't read.
#[derive(Clone, Copy, Debug, PartialEq, Eq)]
pub enum ValueError {
    Bad(BadValue),
    Memory,
}

impl From<BadValue> for ValueError {
    ghost from_gives = { λ bad e. e ≡ Bad bad };

    fn from(bad: BadValue) -> ValueError {
        ValueError::Bad(bad)
    }
}

impl From<Memory> for ValueError {
    ghost from_gives = { λ _ e. e ≡ OutOfMemory };

    fn from(_error: Memory) -> ValueError {
        ValueError::Memory
    }
}
