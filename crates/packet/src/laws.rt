// The laws of the parser and the deparser, each the contract of a function that returns nothing of note.
ghost use Rattle.packet.specs.Chain.{Refusals, Follows};
ghost use Rattle.packet.specs.Laws.{RoundTrip, SameLength, StandsWritten, EachBitOnce};

// What was taken apart and is put together again is the same.
pub fn round_trip() -> u8
    ensures { RoundTrip }
{
    0
}

// A packet leaves with as many bytes as it came with.
pub fn same_length() -> u8
    ensures { SameLength }
{
    0
}

// Each present field stands in the output with its value.
pub fn stands_written() -> u8
    ensures { StandsWritten }
{
    0
}

// Each bit belongs to one field, or to the payload.
pub fn each_bit_once() -> u8
    ensures { EachBitOnce }
{
    0
}

// A packet is refused exactly if it is too long or ends within a header.
pub fn refusals() -> u8
    ensures { Refusals }
{
    0
}

// Headers are read as each picks the next.
pub fn follows() -> u8
    ensures { Follows }
{
    0
}
