// Copies of short vectors.
ghost use Rattle.std.specs.Prelude.{◌≡◌};

use crate::few::Few;
use std::alloc::AllocError;

impl<T: Copy, const N: usize> Clone for Few<T, N> {
    ghost is_clone = { λ v w. w ≡ v };

    ghost is_infallible = { λ _. Unit };

    fn clone(&self) -> Result<Self, AllocError> {
        Ok(*self)
    }
}
