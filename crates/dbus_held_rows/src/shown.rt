//! Values that are held, as text.

use anyhow::Result;
use dbus_held::{Held, Lent};

/// How many values a signature may have.
const MOST: usize = 255;

/// A value that is lent, or given in its own form.
fn push_lent(out: &mut String, lent: &Lent<'_>) -> Result<()> {
    match lent {
        Lent::Text(text) => write!(out, "text {text}, ")?,
        Lent::Path(path) => write!(out, "path {path}, ")?,
        Lent::Bytes(bytes) => write!(out, "bytes {:?}, ", *bytes)?,
        Lent::Own(value) => write!(out, "{value:?}, ")?,
    }
    Ok(())
}

/// Each value, to the first place at which there is none.
pub fn push_values(out: &mut String, held: &Held) -> Result<()> {
    if held.is_empty() {
        write!(out, "none, ")?;
    }
    for place in 0..=MOST {
        match held.lent(place)? {
            Some(lent) => push_lent(out, &lent)?,
            None => return Ok(()),
        }
    }
    Ok(())
}
