// Headers of a packet: their fields, and how one chooses the next.
ghost use Rattle.std.specs.Prelude.{◌+◌, ◌≤◌};

use crate::field::{FieldNo, No};

// A header of a program: one of 8.
pub type HeaderNo = No<8>;

// What comes if the choosing field has this value: another header, or the payload.
#[derive(Clone, Copy, Debug, PartialEq, Eq)]
pub struct Choice {
    pub value: u32,
    pub next: Option<HeaderNo>,
}

// The choosing field, and its choices: the first whose value equals the field's is taken, and none is the end.
#[derive(Drop)]
pub struct After {
    pub field: FieldNo,
    pub choices: Vec<Choice>,
}

// A header's fields stand one behind the other, from number `from` on.
#[derive(Drop)]
pub struct Header {
    pub from: u8,
    pub fields: u8,
    pub after: Option<After>,
    ghost ok: { from + fields ≤ 64 },
}

// All headers in the order of the source, and the one with which each packet begins.
#[derive(Drop)]
pub struct Headers {
    pub all: Vec<Header>,
    pub first: HeaderNo,
}
