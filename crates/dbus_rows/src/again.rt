//! A value read at an offset, and written again at the same offset.
ghost use Rattle.std.specs.Prelude.{◌≡◌, ◌≤◌, ◌<◌, ◌-◌, ◌^◌, ◌++◌, length, take, drop, IfOk, OnErr};
ghost use Rattle.dbus_signature.specs.Reading.{Gives};
ghost use Rattle.dbus_signature.specs.Signatures.{IsOneType, SpellsType};
ghost use Rattle.dbus_signature.specs.declared.kind.Kind.{Kind};
ghost use Rattle.dbus_rows.specs.Ends.{end_of};

use dbus_wire::{Endian, Signature, WireError, read_is_written_again, read_value, write_value};
use std::alloc::Global;

/// Reads the value at an offset, and writes it behind `out`, which has as many bytes. Answers the offset behind it.
///
/// Bad as for `read_value`.
pub fn again_at(
    alloc: Global,
    signature: &Signature,
    bytes: &[u8],
    endian: Endian,
    out: &mut Vec<u8>,
) -> Result<usize, WireError>
    requires one { IsOneType signature.now }
    requires short { length bytes.now < 2 ^ 32 }
    requires within { length out.old.items ≤ length bytes.now }
    // The end is that of the value which stands there.
    ensures end { (kind : Kind) → SpellsType signature.now kind → Gives (λ end. end) result (end_of endian kind (length out.old.items) bytes.now) }
    // The bytes up to it, of which there is one at least, were written again.
    ensures some { IfOk result (λ end. length out.old.items < end) }
    ensures again { IfOk result (λ end. out.new.items ≡ out.old.items ++ take (end - length out.old.items) (drop (length out.old.items) bytes.now)) }
    ensures err { OnErr result (out.new.items ≡ out.old.items) }
{
    let (value, end) = read_value(alloc, signature, bytes, out.as_slice().len(), endian)?;
    write_value(&value, endian, out)?;
    read_is_written_again();
    Ok(end)
}
