// The store of the packets.
ghost use Rattle.std.specs.Prelude.{◌≡◌, vec_len};

use crate::packet::Stored;

// A packet for each place.
#[derive(Drop)]
pub struct Store {
    pub(crate) all: Vec<Stored>,
    ghost each: { vec_len all ≡ 13 },
}
