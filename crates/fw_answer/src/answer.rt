//! What calls answer.
ghost use Rattle.std.specs.Prelude.{◌≡◌, IfOk};
ghost use Rattle.fw_answer.specs.Refusals.{value_answer};

use fw_base::{Memory, Seq};
use fw_told::{Reply, Signal, Value};
use std::alloc::Global;

/// The signals that a call gives, in order, and its reply.
#[derive(Drop)]
pub struct Answer {
    pub signals: Seq<Signal>,
    pub reply: Reply,
}

/// No signal, and a reply with one value.
pub fn value_answer(alloc: Global, value: Value) -> Result<Answer, Memory>
    ensures { IfOk result (λ answer. answer ≡ value_answer value) }
{
    let mut values = Seq::new(alloc);
    values.push(value)?;
    Ok(Answer {
        signals: Seq::new(alloc),
        reply: Reply::Ok(values),
    })
}
