//! Where the elements of an array begin.

ghost use Rattle.std.specs.Prelude.{◌≡◌, ◌<◌};
ghost use Rattle.dbus_signature.specs.Cursors.{read_at, seen};
ghost use Rattle.dbus_signature.specs.Reading.{Gives};
ghost use Rattle.dbus_wire.specs.Arrays.{head_at};

use crate::fields::{padding_at, plain_u32_at};
use crate::value::Endian;
use dbus_signature::{Cursor, WireError};

/// How many bytes an array may have (D-Bus Specification, "Marshalling containers").
const MAX_ARRAY: usize = 67_108_864;

/// How many bytes an array has, and the cursor at its first element, behind padding that these bytes leave out.
#[tactic(auto, unfolding(crate::specs::Arrays::head_at))]
pub fn head_at(
    endian: Endian,
    align: usize,
    from: Cursor<'_>,
) -> Result<(usize, Cursor<'_>), WireError>
    requires { 0 < align }
    ensures { Gives seen result (read_at (head_at endian align) from.entry) }
{
    let ((), start) = padding_at(4, from)?;
    let (count, first) = plain_u32_at(endian, start)?;
    let count = count as usize;
    if count > MAX_ARRAY {
        return Err(WireError::Bad(start.at));
    }
    let ((), first) = padding_at(align, first)?;
    Ok((count, first))
}
