// Slots, and the places of the store where their packets stand.
use program::field::No;

// A place of the store: one more than there are slots.
pub type Place = No<13>;

// Every slot has a place of the store, also while it is free. A packet under way is at a node.
#[derive(Clone, Copy, Debug, PartialEq, Eq)]
pub struct Slot {
    pub place: Place,
    pub node: Option<u16>,
}

// One slot for each stage.
#[derive(Clone, Copy)]
pub struct Slots {
    pub row: [Slot; 12],
}
