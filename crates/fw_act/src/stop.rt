//! Calls that are refused.
ghost use Rattle.std.specs.Prelude.{◌≡◌, IfOk};
ghost use Rattle.fw_act.specs.Acts.{Reads, required};
ghost use Rattle.fw_act.specs.declared.stop.Stop.TheVariants.{Memory as OutOfMemory};

use fw_base::{Memory, Text};
use fw_calls::Refusal;
use fw_model::Code;
use std::alloc::Global;

/// Why a call isn't carried out.
#[derive(Drop)]
pub enum Stop {
    /// It is refused.
    Refused(Refusal),
    /// No memory was found.
    Memory,
}

impl From<Memory> for Stop {
    ghost from_gives = { λ _ stop. stop ≡ OutOfMemory };

    fn from(_error: Memory) -> Stop {
        Stop::Memory
    }
}

/// A refusal of something by its text.
pub fn refuse(alloc: Global, code: Code, subject: &str) -> Result<Refusal, Memory>
    ensures { IfOk result (λ refusal. refusal ≡ record { code = code; subject = subject.now }) }
{
    Ok(Refusal {
        code,
        subject: Text::of(alloc, subject)?,
    })
}

/// Refuses something by its text where a test of it doesn't hold.
pub fn require(alloc: Global, holds: bool, code: Code, subject: &str) -> Result<(), Stop>
    ensures { Reads result (required holds code subject.now) }
{
    if holds {
        Ok(())
    } else {
        Err(Stop::Refused(refuse(alloc, code, subject)?))
    }
}
