// The laws of encoding, each the contract of a function that returns nothing of note.
ghost use Rattle.encoding.specs.RoundTrip.{OnlyBytes, RoundTrip, OneEncoding};

// What is written for an update are bytes.
pub fn only_bytes() -> u8
    ensures { OnlyBytes }
{
    0
}

// What is written for an update is read as that update.
pub fn round_trip() -> u8
    ensures { RoundTrip }
{
    0
}

// Bytes that are read as an update are those that are written for it.
pub fn one_encoding() -> u8
    ensures { OneEncoding }
{
    0
}
