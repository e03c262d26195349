// What happens to a pipeline, and what comes of it.
use pipeline::answer::OldPacketUnderWay;
use pipeline::packet::Packet;
use program::field::Fields;
use table::entry::Edit;

// A step that brings nothing, a step that brings a packet with these fields and no payload, or an update between two steps.
#[derive(Drop)]
pub enum Event {
    Idle,
    Comes(Fields),
    Update(Vec<Edit>),
}

// What a step sends, if a packet leaves, and what an update is answered.
#[derive(Clone, Copy)]
pub enum Outcome {
    Sent(Option<Packet>),
    Answered(Result<(), OldPacketUnderWay>),
}
