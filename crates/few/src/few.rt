// A short vector.
ghost use Rattle.std.specs.Prelude.{◌≤◌};

// At most N elements; each place past them holds some element too. The count stands first, so that the first elements are read with it.
#[derive(Copy)]
pub struct Few<T, const N: usize> {
    pub count: usize,
    pub all: [T; N],
    ghost fits: { count ≤ N },
}
