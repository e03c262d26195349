// What a short vector is made of, and what it holds.
ghost use Rattle.std.specs.Prelude.{◌≡◌, ◌≤◌, ◌<◌, length, MatchOption};
ghost use Rattle.few.specs.Few.{items_of};

use crate::few::Few;

impl<T: Copy + Default, const N: usize> Few<T, N> {
    // These elements, if they are no more than N.
    pub fn of(elements: &[T]) -> Option<Self>
        ensures { MatchOption result (N < length elements.now) (λ v. items_of v ≡ elements.now) }
    {
        let count = elements.len();
        if count > N {
            return None;
        }
        let mut all: [T; N] = Default::default();
        all[..count].copy_from_slice(elements);
        Some(Few { count, all })
    }
}

impl<T: Copy, const N: usize> Few<T, N> {
    // The elements, in order.
    #[inline]
    pub fn as_slice(&self) -> &[T]
        ensures items { result.now ≡ items_of self.now }
        ensures fits { length result.now ≤ N }
    {
        &self.all[..self.count]
    }
}
