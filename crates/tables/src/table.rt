// A table of up to N values.
ghost use Rattle.std.specs.Prelude.{◌≡◌, ◌≤◌, length, ⊤};

use std::alloc::AllocError;

mod calls;

/// Up to N values in order. The array past them is filled with values that do not count.
pub struct Table<T, const N: usize> {
    items: [T; N],
    count: usize,
    ghost size: { length items ≡ N },
    ghost room: { count ≤ N },
}

impl<T: Copy, const N: usize> Copy for Table<T, N> {}

impl<T: Copy, const N: usize> Clone for Table<T, N> {
    ghost is_clone = { λ x y. y ≡ x };

    ghost is_infallible = { λ _. ⊤ };

    fn clone(&self) -> Result<Self, AllocError> {
        Ok(*self)
    }
}
