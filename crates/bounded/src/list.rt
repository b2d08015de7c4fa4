// The list itself: the first `used` of the items.
ghost use Rattle.std.specs.Prelude.{◌≡◌, ◌≤◌, ⊤, length};

use std::alloc::AllocError;

// That a list has no place left.
#[derive(Clone, Copy, PartialEq, Eq, Debug)]
pub struct Full;

// A buffer with a count beside it, since the certifier has no heap. It has no model of its own: one
// takes `Copy` away unless the items not in use can be got back from the list.
pub struct Bounded<T, const N: usize> {
    pub(crate) items: [T; N],
    pub(crate) used: usize,
    ghost whole: { length items ≡ N },
    ghost fits: { used ≤ N },
}

// By hand, since neither is derived beside a ghost field.
impl<T: Copy, const N: usize> Clone for Bounded<T, N> {
    ghost is_clone = { λ x y. y ≡ x };

    ghost is_infallible = { λ _. ⊤ };

    fn clone(&self) -> Result<Bounded<T, N>, AllocError> {
        Ok(*self)
    }
}

impl<T: Copy, const N: usize> Copy for Bounded<T, N> {}
