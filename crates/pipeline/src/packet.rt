// Packets: as they come, and as the pipeline stores them.
ghost use Rattle.std.specs.Prelude.{◌≤◌, length as list_length};

use program::field::Fields;

// A packet that comes: its fields, which headers are there, one bit each, and its payload, at most 2,048 bytes.
#[derive(Clone, Copy)]
pub struct Incoming<'a> {
    pub fields: &'a Fields,
    pub present: u8,
    pub payload: &'a [u8],
    ghost fits: { list_length payload.now ≤ 2048 },
}

// What a stored packet has besides its fields. An array and its length: a packet is Copy, as `play` takes one
// out of the pipeline by value; an ArrayVec is not, and its clone may fail.
#[derive(Clone, Copy)]
pub struct Payload {
    pub present: u8,
    pub length: u16,
    pub bytes: [u8; 2048],
    ghost fits: { length ≤ 2048 },
}

// A packet in the pipeline's store.
#[derive(Clone, Copy)]
pub struct Packet {
    pub fields: Fields,
    pub payload: Payload,
}

// A packet and the version that it goes by.
#[derive(Clone, Copy)]
pub struct Stored {
    pub packet: Packet,
    pub version: bool,
}
