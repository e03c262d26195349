// A stream of bytes through a switch, as definitions and theorems.
#![tactic(auto)]

ghost use Rattle.stream.specs.Whole.{ServedAsMeant, FramesAsMeant};

// Bytes in, bytes out: the switch writes what is meant.
pub fn served_as_meant() -> u8
    ensures { ServedAsMeant }
{
    0
}

// The same for any frames, also where some were refused for want of memory.
pub fn frames_as_meant() -> u8
    ensures { FramesAsMeant }
{
    0
}
