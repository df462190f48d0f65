//! Signals that carry nothing or one text.
ghost use Rattle.std.specs.Prelude.{◌≡◌, IfOk};
ghost use Rattle.fw_root_members.specs.Changing.{plain, with_text};

use fw_base::{Memory, Seq, Text};
use fw_calls::{Arg, Signal, SignalKind};
use std::alloc::Global;

/// A signal that carries nothing. It takes no memory.
pub fn plain(alloc: Global, kind: SignalKind) -> Signal
    ensures { result ≡ plain kind }
{
    Signal {
        kind,
        args: Seq::new(alloc),
    }
}

/// A signal that carries a text.
pub fn with_text(alloc: Global, kind: SignalKind, text: &str) -> Result<Signal, Memory>
    ensures { IfOk result (λ signal. signal ≡ with_text kind text.now) }
{
    let mut args = Seq::new(alloc);
    args.push(Arg::Text(Text::of(alloc, text)?))?;
    Ok(Signal { kind, args })
}
