// The kinds of frame that carry bytes behind a length.

#[derive(Clone, Copy, Debug, PartialEq, Eq, Hash)]
pub enum Kind {
    // The text of a program.
    Source,
    // New entries for the tables of a program.
    Update,
    // A packet for the pipeline.
    Packet,
}
