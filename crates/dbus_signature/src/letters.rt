//! The letters of signatures, which are short nearly always.

ghost use Rattle.std.specs.Prelude.{◌≡◌, take, IfOk};
ghost use Rattle.dbus_signature.specs.Letters.{letters_of};

use fw_base::Memory;
use sqlite_items::{Boxed, Items};
use std::alloc::Global;

/// How many letters lie in place.
const SHORT: usize = 14;

/// Letters: up to 14 in place, with their number, and more in a block of their own. All in all 16 bytes.
#[derive(Drop)]
pub enum Letters {
    Short([u8; SHORT], u8),
    Long(Boxed<Items<u8>>),
}

/// A copy of some letters.
pub fn copy_letters(alloc: Global, text: &[u8]) -> Result<Letters, Memory>
    ensures { IfOk result (λ letters. letters_of letters ≡ text.now) }
{
    if text.len() > SHORT {
        let block = Items::from_slice(alloc, text)?;
        return Ok(Letters::Long(Boxed::new(alloc, block)?));
    }
    let mut front = [0; SHORT];
    front[..text.len()].copy_from_slice(text);
    Ok(Letters::Short(front, text.len() as u8))
}

/// The first bytes, as many as are there of so many.
fn front_of(bytes: &[u8], count: usize) -> &[u8]
    ensures { result.now ≡ take count bytes.now }
{
    if bytes.len() < count {
        return bytes;
    }
    let (front, _) = bytes.split_at(count);
    front
}

/// The letters, lent.
pub fn lend_letters(letters: &Letters) -> &[u8]
    ensures { result.now ≡ letters_of letters.now }
{
    match letters {
        Letters::Short(front, count) => front_of(front, usize::from(*count)),
        Letters::Long(block) => block.get().as_slice(),
    }
}
