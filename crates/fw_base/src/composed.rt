//! Copies of options and pairs, which are `Copy` themselves where their parts are, so that they are no `TryCopy`.
ghost use Rattle.std.specs.Prelude.{◌≡◌, IfOk};

use super::{Memory, Seq, TryCopy};
use std::alloc::Global;

/// An equal option.
///
/// Refuses for want of memory alone.
pub fn copy_option<T: TryCopy>(alloc: Global, option: &Option<T>) -> Result<Option<T>, Memory>
    ensures { IfOk result (λ copied. copied ≡ option.now) }
{
    match option {
        Some(value) => Ok(Some(value.copy(alloc)?)),
        None => Ok(None),
    }
}

/// An equal pair.
///
/// Refuses for want of memory alone.
pub fn copy_pair<A: TryCopy, B: TryCopy>(alloc: Global, pair: &(A, B)) -> Result<(A, B), Memory>
    ensures { IfOk result (λ copied. copied ≡ pair.now) }
{
    let (first, second) = pair;
    Ok((first.copy(alloc)?, second.copy(alloc)?))
}

/// An equal list of pairs, whose room is found at once.
///
/// Refuses for want of memory alone.
pub fn copy_pairs<A: TryCopy, B: TryCopy>(
    alloc: Global,
    pairs: &Seq<(A, B)>,
) -> Result<Seq<(A, B)>, Memory>
    ensures { IfOk result (λ copied. copied ≡ pairs.now) }
{
    let pairs = pairs.as_slice();
    let mut copied = Vec::with_capacity(alloc, pairs.len())?;
    for pair in pairs {
        copied.push(copy_pair(alloc, pair)?)?;
    }
    Ok(Seq::from_vec(copied))
}
