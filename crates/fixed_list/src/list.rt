// A list of at most N items.
ghost use Rattle.std.specs.Prelude.{◌≡◌, ◌≤◌, length, ⊤};

use std::alloc::AllocError;

mod places;

// The first `count` places are items; the others are room for more.
pub struct FixedList<T, const N: usize> {
    places: [T; N],
    count: usize,
    ghost few: { count ≤ N },
    ghost full: { length places ≡ N },
}

impl<T: Copy, const N: usize> Copy for FixedList<T, N> {}

impl<T: Copy, const N: usize> Clone for FixedList<T, N> {
    ghost is_clone = { λ a b. a ≡ b };

    ghost is_infallible = { λ _. ⊤ };

    fn clone(&self) -> Result<FixedList<T, N>, AllocError> {
        Ok(*self)
    }
}
