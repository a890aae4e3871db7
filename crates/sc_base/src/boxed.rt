//! A value on the heap, which contracts see as the value itself.
ghost use Rattle.std.specs.Prelude.{◌≡◌, IfOk};

use crate::dups::{Dup, OutOfMemory};
use crate::sames::Same;
use std::alloc::{AllocError, Global};
use std::marker::Model;

/// A value in a heap block of its own, so that it takes the room of a pointer where it stands. It
/// is for the rare large part of a type that is mostly small. Contracts see it as the value.
#[derive(Drop)]
pub struct Boxed<T> {
    kept: Box<T>,
}

impl<T> Model for Boxed<T> {
    ghost Value = { T };

    ghost view = { λ a. a.kept.value };
}

impl<T> Boxed<T> {
    /// Returns a reference to the value.
    pub fn get(&self) -> &T
        ensures { result.now ≡ self.now }
    {
        self.kept.as_ref()
    }
}

impl<T: Drop> Boxed<T> {
    /// Moves the value into a heap block of its own. After `Err(OutOfMemory)` the value is
    /// dropped.
    pub fn new(alloc: Global, value: T) -> Result<Boxed<T>, OutOfMemory>
        ensures { IfOk result (λ a. a ≡ value) }
    {
        let kept = Box::new(alloc, value)?;
        Ok(Boxed { kept })
    }
}

impl<T: Dup + Drop> Dup for Boxed<T> {
    fn dup(&self, alloc: Global) -> Result<Boxed<T>, OutOfMemory> {
        let copy = self.get().dup(alloc)?;
        Boxed::new(alloc, copy)
    }
}

impl<T: Dup + Drop> Clone for Boxed<T> {
    ghost is_clone = { λ value copy. copy ≡ value };

    fn clone(&self) -> Result<Boxed<T>, AllocError> {
        Ok(self.dup(*Box::allocator(&self.kept))?)
    }
}

impl<T: PartialEq> PartialEq for Boxed<T> {
    ghost eq = { T.eq };

    ghost laws = { T.laws };

    fn eq(&self, other: &Boxed<T>) -> bool {
        self.get() == other.get()
    }
}

impl<T: Eq> Eq for Boxed<T> {
    ghost laws = { T.Eq.laws };
}

impl<T: Same> Same for Boxed<T> {
    fn is_same(&self, other: &Boxed<T>) -> bool {
        self.get().is_same(other.get())
    }
}
