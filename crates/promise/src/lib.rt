// What is promised of the whole, each promise the contract of a function that returns nothing of note.
#![tactic(auto)]

ghost use Rattle.promise.specs.Accepting.{TakenIfPlaceable};
ghost use Rattle.promise.specs.Others.{OthersUndisturbed};
ghost use Rattle.promise.specs.Pieces.{NothingWhole, ServedInPieces};
ghost use Rattle.promise.specs.Refusals.{RefusedSource, RefusedUpdate, RefusedPacket};

// A first source is taken if and only if the grammar holds of it and the rule places it.
pub fn taken_if_placeable() -> u8
    ensures { TakenIfPlaceable }
{
    0
}

// An input that comes in pieces is served as if it had come at once.
pub fn served_in_pieces() -> u8
    ensures pieces { ServedInPieces }
    ensures left { NothingWhole }
{
    0
}

// A source, an update and a packet that are refused change nothing.
pub fn refused_changes_nothing() -> u8
    ensures source { RefusedSource }
    ensures update { RefusedUpdate }
    ensures packet { RefusedPacket }
{
    0
}

// With another packet in the place of one, all output that belongs to others is the same.
pub fn others_undisturbed() -> u8
    ensures { OthersUndisturbed }
{
    0
}
