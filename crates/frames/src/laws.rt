// The laws of reading frames, each the contract of a function that returns nothing of note.
ghost use Rattle.frames.specs.Laws.{Framing, RoundTrip, Lasting, Early, Advancing};

// What is read covers the input.
pub fn framing_stands() -> u8
    ensures { Framing }
{
    0
}

// A frame is read as it was written.
pub fn round_trip_stands() -> u8
    ensures { RoundTrip }
{
    0
}

// Bytes that come later do not change what was whole.
pub fn lasting_stands() -> u8
    ensures { Lasting }
{
    0
}

// What is done early is what would be done late.
pub fn early_stands() -> u8
    ensures { Early }
{
    0
}

// Serving goes on by frames that are at hand.
pub fn advancing_stands() -> u8
    ensures { Advancing }
{
    0
}
