//! Values read and written again.

ghost use Rattle.std.specs.Prelude.{◌≡◌, ℕ, ◌<◌, ◌^◌, List, length, take, Ok, OnOk};
ghost use Rattle.dbus_signature.specs.Signatures.{all_kinds};
ghost use Rattle.dbus_signature.specs.declared.kind.Kind.{Kind};
ghost use Rattle.dbus_wire.specs.declared.value.Endian.TheVariants.{Little as little_endian};
ghost use Rattle.dbus_wire.specs.declared.value.Value.{Value};
ghost use Rattle.dbus_wire.specs.Values.{values_of};

use dbus_held::read_held;
use dbus_wire::{Endian, Signature, WireError};
use std::alloc::Global;

/// Reads the values at the start of the bytes, and writes them in place of what was there.
///
/// What is read is spelt in the bytes, so that its spelling is as short as they are.
pub fn again(
    alloc: Global,
    signature: &Signature,
    bytes: &[u8],
    out: &mut Vec<u8>,
) -> Result<(), WireError>
    requires short { length bytes.now < 2 ^ 32 }
    // What is written are the bytes of the values that stand there.
    ensures { OnOk result ((kinds : List Kind) (found : List Value × ℕ) → all_kinds signature.now ≡ Ok kinds → values_of little_endian kinds 0 bytes.now ≡ Ok found → out.new.items ≡ take found.1 bytes.now) }
{
    let (held, _) = read_held(alloc, signature, bytes, 0, Endian::Little)?;
    out.clear();
    held.write(Endian::Little, out)?;
    Ok(())
}
