// The store of all tables.
ghost use Rattle.std.specs.Prelude.{◌≡◌, vec_len};

use crate::rows::Rows;

// A program has at most 32 tables; those that it doesn't declare are never looked up.
#[derive(Drop)]
pub struct Tables {
    pub(crate) all: Vec<Rows>,
    ghost each: { vec_len all ≡ 32 },
}
