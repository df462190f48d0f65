//! Values read at an offset, held, and written again at the same offset.

ghost use Rattle.std.specs.Prelude.{◌≡◌, ◌≤◌, ◌<◌, ◌^◌, ◌++◌, List, length, drop, IfOk, Ok};
ghost use Rattle.dbus_signature.specs.Reading.{Gives};
ghost use Rattle.dbus_signature.specs.Signatures.{all_kinds};
ghost use Rattle.dbus_signature.specs.declared.kind.Kind.{Kind};
ghost use Rattle.dbus_wire.specs.Values.{values_of};

use dbus_held::{Held, read_held};
use dbus_wire::{Endian, Signature, WireError};
use std::alloc::Global;

/// Reads the values at an offset, and writes them behind `out`, which has as many bytes. Answers the values and the offset
/// behind them; Bad as for `read_held`.
pub fn again(
    alloc: Global,
    signature: &Signature,
    bytes: &[u8],
    endian: Endian,
    out: &mut Vec<u8>,
) -> Result<(Held, usize), WireError>
    requires short { length bytes.now < 2 ^ 32 }
    requires within { length out.old.items ≤ length bytes.now }
    ensures exact { (kinds : List Kind) → all_kinds signature.now ≡ Ok kinds → Gives (λ found. found) result (values_of endian kinds (length out.old.items) bytes.now) }
    // The bytes up to the end were written again.
    ensures again { IfOk result (λ found. out.new.items ++ drop found.1 bytes.now ≡ out.old.items ++ drop (length out.old.items) bytes.now) }
{
    let (held, end) = read_held(alloc, signature, bytes, out.as_slice().len(), endian)?;
    held.write(endian, out)?;
    Ok((held, end))
}
