ghost use Rattle.std.specs.Prelude.{◌≡◌, ◌≤◌, length, ⊤};

use std::alloc::AllocError;

/// A list of up to `N` values in fixed memory: the first `len` of the items, the others are of no account. But for a row, which counts its
/// own arguments, each buffer with a length beside it is one: the matcher has no heap, and a list that is `Copy` is kept and put back
/// without a call that can fail.
pub struct List<T, const N: usize> {
    pub(crate) items: [T; N],
    pub(crate) len: usize,
    ghost size: { length items ≡ N },
    ghost within: { len ≤ N },
}

impl<T: Copy, const N: usize> Copy for List<T, N> {}

// A struct with a ghost field and a parameter gets no derive of this.
impl<T: Copy, const N: usize> Clone for List<T, N> {
    ghost is_clone = { λ old new. new ≡ old };

    ghost is_infallible = { λ _. ⊤ };

    fn clone(&self) -> Result<Self, AllocError> {
        Ok(*self)
    }
}
