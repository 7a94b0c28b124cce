// What can be kept.
ghost use Rattle.std.specs.Prelude.{◌≡◌, IfOk};

use std::alloc::AllocError;

/// What a keeper can hold: a value that has copies equal to it.
pub trait Storable: Drop {
    /// A copy, equal to the value. `AllocError` where no memory is left.
    fn copy(&self) -> Result<Self, AllocError>
    where
        Self: Sized,
        ensures { IfOk result (λ copy. copy ≡ self.now) };
}
