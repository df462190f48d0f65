//! Values read alone, and written alone.

ghost use Rattle.std.specs.Prelude.{◌<◌, ◌^◌, length};

use crate::mixed;
use dbus_held::read_held;
use dbus_wire::{Endian, Signature, WireError};
use std::alloc::Global;

/// Reads the values at the start of the bytes so many times, and gives a checksum of the offsets behind them.
pub fn read_only(
    alloc: Global,
    signature: &Signature,
    bytes: &[u8],
    count: u64,
) -> Result<u64, WireError> {
    let mut sum = 0;
    for _ in 0..count {
        let (_, end) = read_held(alloc, signature, bytes, 0, Endian::Little)?;
        sum = mixed(sum, &(end as u64).to_le_bytes());
    }
    Ok(sum)
}

/// Reads the values at the start of the bytes once, writes them so many times in place of what was there, and gives a
/// checksum of all that was written.
pub fn write_only(
    alloc: Global,
    signature: &Signature,
    bytes: &[u8],
    count: u64,
    out: &mut Vec<u8>,
) -> Result<u64, WireError>
    requires short { length bytes.now < 2 ^ 32 }
{
    let (held, _) = read_held(alloc, signature, bytes, 0, Endian::Little)?;
    let mut sum = 0;
    for _ in 0..count {
        out.clear();
        held.write(Endian::Little, out)?;
        sum = mixed(sum, out.as_slice());
    }
    Ok(sum)
}
