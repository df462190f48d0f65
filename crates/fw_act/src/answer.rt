//! What members answer.
ghost use Rattle.std.specs.Prelude.{◌≡◌, [], ◌∷◌, IfOk};

use fw_base::{Memory, Seq};
use fw_calls::{Reply, Signal};
use std::alloc::Global;

/// The signals that a call gives, in order, and its reply.
#[derive(Drop)]
pub struct Answer {
    pub signals: Seq<Signal>,
    pub reply: Reply,
}

/// No signal, and a reply. It takes no memory.
pub fn replied(alloc: Global, reply: Reply) -> Answer
    ensures { result ≡ record { signals = []; reply = reply } }
{
    Answer {
        signals: Seq::new(alloc),
        reply,
    }
}

/// One signal, and a reply.
pub fn told(alloc: Global, signal: Signal, reply: Reply) -> Result<Answer, Memory>
    ensures { IfOk result (λ answer. answer ≡ record { signals = signal ∷ []; reply = reply }) }
{
    let mut signals = Seq::new(alloc);
    signals.push(signal)?;
    Ok(Answer { signals, reply })
}
