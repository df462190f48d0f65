//! A value in memory of its own that contracts see as the value.
ghost use Rattle.std.specs.Prelude.{◌≡◌, IfOk};

use super::{Memory, TryCopy};
use std::alloc::{AllocError, Global};
use std::marker::Model;

/// A box. Contracts see the value in it.
#[derive(Debug, Drop)]
pub struct One<T> {
    boxed: Box<T>,
}

impl<T> Model for One<T> {
    ghost Value = { T };

    ghost coded = { T.code };

    ghost view = { λ one. one.boxed.value };
}

impl<T> One<T> {
    pub fn get(&self) -> &T
        ensures { result.now ≡ self.now }
    {
        &self.boxed
    }

    /// The value out of its box, which takes no memory.
    pub fn into_inner(self) -> T
        ensures { result ≡ self }
    {
        let One { boxed } = self;
        Box::into_inner(boxed)
    }
}

impl<T: Drop> One<T> {
    /// The value in memory of its own.
    pub fn of(alloc: Global, value: T) -> Result<One<T>, Memory>
        ensures { IfOk result (λ one. one ≡ value) }
    {
        Ok(One {
            boxed: Box::new(alloc, value)?,
        })
    }
}

impl<T: PartialEq> PartialEq for One<T> {
    ghost eq = { T.eq };

    ghost laws = { T.laws };

    fn eq(&self, other: &One<T>) -> bool {
        self.get() == other.get()
    }
}

impl<T: Eq> Eq for One<T> {
    ghost laws = { T.Eq.laws };
}

impl<T: TryCopy> Clone for One<T> {
    ghost is_clone = { λ one copied. copied ≡ one };

    fn clone(&self) -> Result<One<T>, AllocError> {
        match self.copy(*Box::allocator(&self.boxed)) {
            Ok(copied) => Ok(copied),
            Err(Memory) => Err(AllocError),
        }
    }
}

impl<T: TryCopy> TryCopy for One<T> {
    fn copy(&self, alloc: Global) -> Result<One<T>, Memory> {
        let value = self.get().copy(alloc)?;
        One::of(alloc, value)
    }
}
