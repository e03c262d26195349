// What stands at the front of the bytes at hand.
use crate::kind::Kind;

#[derive(Clone, Copy, Debug, PartialEq, Eq, Hash)]
pub enum Next<'a> {
    // There are no bytes.
    Empty,
    // A pause, which is its kind byte alone.
    Pause {
        rest: &'a [u8],
    },
    // A frame with all of its bytes.
    Whole {
        kind: Kind,
        body: &'a [u8],
        rest: &'a [u8],
    },
    // A frame whose length field, or whose bytes by that length, run past what is at hand.
    Cut {
        kind: Kind,
    },
    // A kind byte that no frame has.
    Unknown,
}
