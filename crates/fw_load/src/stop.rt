//! Why a value isn't read.
ghost use Rattle.std.specs.Prelude.{◌≡◌, []};
ghost use Rattle.fw_load.specs.Answers.{Says};
ghost use Rattle.fw_load.specs.Values.{or_fault};
ghost use Rattle.fw_load.specs.declared.stop.Stop.TheVariants.{Fault, Memory as OutOfMemory};

use fw_base::{Memory, Text};
use std::alloc::Global;

/// Why a value isn't read.
#[derive(Drop)]
pub enum Stop {
    /// The first fault in it, by the way there.
    Fault(Text),
    Memory,
}

impl From<Memory> for Stop {
    ghost from_gives = { λ _ stop. stop ≡ OutOfMemory };

    fn from(_error: Memory) -> Stop {
        Stop::Memory
    }
}

/// The fault of a value itself. It takes no memory.
pub fn here(alloc: Global) -> Stop
    ensures { result ≡ Fault [] }
{
    Stop::Fault(Text::from_string(String::new(alloc)))
}

/// What was found, or the fault of the value itself.
pub fn or_fault<T: Drop>(alloc: Global, found: Option<T>) -> Result<T, Stop>
    ensures { Says result (or_fault found) }
{
    match found {
        Some(item) => Ok(item),
        None => Err(here(alloc)),
    }
}
