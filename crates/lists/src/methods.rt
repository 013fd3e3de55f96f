ghost use Rattle.fault.specs.Firsts.{Below};
ghost use Rattle.lists.specs.Entries.{entries};
ghost use Rattle.std.specs.Prelude.{◌≡◌, ◌<◌, ◌≤◌, [], ◌∷◌, ◌++◌, length, take, slice_index_or, MatchOption};

use crate::list::List;

impl<T: Copy, const N: usize> List<T, N> {
    /// The empty list. The blank fills what is not used.
    pub fn new(blank: T) -> Self
        ensures { entries result ≡ [] }
    {
        List {
            items: [blank; N],
            len: 0,
        }
    }

    /// The list of the values in a slice: of the first `N`, where there are more. The blank fills what is not used.
    pub fn from_slice(values: &[T], blank: T) -> Self
        ensures first { entries result ≡ take N values.now }
        ensures all { length values.now ≤ N → entries result ≡ values.now }
        ensures filled { Below N (λ i. slice_index_or result.items i blank ≡ slice_index_or values.now i blank) }
    {
        let len = values.len().min(N);
        let mut items = [blank; N];
        items[..len].copy_from_slice(&values[..len]);
        List { items, len }
    }

    /// How many values there are.
    pub fn len(&self) -> usize
        ensures value { result ≡ length (entries self.now) }
        ensures bound { result ≤ N }
    {
        self.as_slice().len()
    }

    /// The values, in their order.
    pub fn as_slice(&self) -> &[T]
        ensures { result.now ≡ entries self.now }
    {
        &self.items[..self.len]
    }

    /// One more value, at the end.
    pub fn push(&mut self, value: T)
        requires { length (entries self.old) < N }
        ensures { entries self.new ≡ entries self.old ++ value ∷ [] }
    {
        self.items[self.len] = value;
        self.len += 1;
    }

    /// Takes the last value off, if there is one.
    pub fn pop(&mut self) -> Option<T>
        ensures { MatchOption result
            (entries self.old ≡ [])
            (λ x. entries self.old ≡ entries self.new ++ x ∷ []) }
    {
        let last = *self.as_slice().last()?;
        self.len -= 1;
        Some(last)
    }

    /// Keeps the first `n` values; all of them, where there are no more.
    pub fn truncate(&mut self, n: usize)
        ensures { entries self.new ≡ take n (entries self.old) }
    {
        self.len = self.len.min(n);
    }
}
