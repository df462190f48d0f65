//! What is told of a zone: one signal, and the zone's name in reply.
ghost use Rattle.std.specs.Prelude.{◌≡◌, [], ◌∷◌, IfOk};
ghost use Rattle.fw_zone_members.specs.Told.{after_edit};
ghost use Rattle.fw_calls.specs.declared.reply.Reply.TheVariants as reply;

use fw_act::{Answer, Stop, told};
use fw_base::{Memory, Text};
use fw_calls::{Reply, Signal};
use std::alloc::Global;

/// One signal, and a reply with a zone's name.
pub fn told_of(alloc: Global, zone: &str, signal: Signal) -> Result<Answer, Memory>
    ensures { IfOk result (λ answer. answer ≡ record { signals = signal ∷ []; reply = reply.Text zone.now }) }
{
    let name = Text::of(alloc, zone)?;
    told(alloc, signal, Reply::Text(name))
}

/// An answer, where the edit that it tells of was made; else why it wasn't. It takes no memory.
pub fn answer_after(edited: Result<(), Stop>, answer: Answer) -> Result<Answer, Stop>
    ensures { result ≡ after_edit edited answer }
{
    match edited {
        Ok(()) => Ok(answer),
        Err(stop) => Err(stop),
    }
}
