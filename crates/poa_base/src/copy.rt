//! Copies that are equal.
ghost use Rattle.std.specs.Prelude.{◌≡◌, IfOk};

use std::alloc::AllocError;

/// A type whose values can be copied where there is memory.
pub trait TryClone: Clone {
    /// An equal value.
    fn try_clone(&self) -> Result<Self, AllocError>
        ensures equal { IfOk result (λ copy. copy ≡ self.now) };
}

impl TryClone for u32 {
    fn try_clone(&self) -> Result<Self, AllocError> {
        Ok(*self)
    }
}
