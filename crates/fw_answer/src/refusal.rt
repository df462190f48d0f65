//! Calls that are refused.
ghost use Rattle.std.specs.Prelude.{◌≡◌, IfOk};
ghost use Rattle.fw_answer.specs.declared.refusal.Stop.TheVariants.{Memory as OutOfMemory};

use fw_base::{Memory, Text};
use fw_model::Code;
use std::alloc::Global;

/// Why a call is refused, and what it refuses.
#[derive(Drop)]
pub struct Refusal {
    pub code: Code,
    pub subject: Text,
}

/// Why a call isn't carried out.
#[derive(Drop)]
pub enum Stop {
    Refused(Refusal),
    Memory,
}

impl From<Memory> for Stop {
    ghost from_gives = { λ _ stop. stop ≡ OutOfMemory };

    fn from(_error: Memory) -> Stop {
        Stop::Memory
    }
}

/// A refusal of something by its text.
pub fn refuse(alloc: Global, code: Code, subject: &str) -> Result<Refusal, Memory>
    ensures { IfOk result (λ refusal. refusal ≡ record { code = code; subject = subject.now }) }
{
    Ok(Refusal {
        code,
        subject: Text::of(alloc, subject)?,
    })
}
