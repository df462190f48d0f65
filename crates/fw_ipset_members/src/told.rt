//! What is told of an edit.
ghost use Rattle.std.specs.Prelude.{◌≡◌};
ghost use Rattle.fw_ipset_members.specs.Told.{after_edit};

use fw_act::{Answer, Stop};

/// An answer, where the edit that it tells of was made; else why it wasn't. It takes no memory.
pub fn answer_after(edited: Result<(), Stop>, answer: Answer) -> Result<Answer, Stop>
    ensures { result ≡ after_edit edited answer }
{
    match edited {
        Ok(()) => Ok(answer),
        Err(stop) => Err(stop),
    }
}
