// What the pipeline answers.

// An update is refused, as a packet of a version before the newest is in a slot.
#[derive(Clone, Copy, Debug, PartialEq, Eq)]
pub struct OldPacketUnderWay;
