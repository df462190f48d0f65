//! Copies that may find no memory.
ghost use Rattle.std.specs.Prelude.{◌≡◌, IfOk};

use super::Memory;
use std::alloc::Global;

/// A value that can be copied where memory is found. Each type that is `Copy` is one.
pub trait TryCopy: Drop {
    /// An equal value.
    ///
    /// Refuses for want of memory alone.
    fn copy(&self, alloc: Global) -> Result<Self, Memory>
    where
        Self: Sized,
        ensures { IfOk result (λ copied. copied ≡ self.now) };

    /// Equal values of some items, in order, in a vector whose room is found at once.
    ///
    /// Refuses for want of memory alone.
    fn copy_all(alloc: Global, items: &[Self]) -> Result<Vec<Self>, Memory>
    where
        Self: Sized,
        ensures { IfOk result (λ copied. copied.items ≡ items.now) }
    {
        let mut copied = Vec::with_capacity(alloc, items.len())?;
        for item in items {
            copied.push(item.copy(alloc)?)?;
        }
        Ok(copied)
    }
}

impl<T: Copy> TryCopy for T {
    fn copy(&self, _alloc: Global) -> Result<T, Memory> {
        Ok(*self)
    }

    fn copy_all(alloc: Global, items: &[T]) -> Result<Vec<T>, Memory> {
        Ok(Vec::from_slice(alloc, items)?)
    }
}
