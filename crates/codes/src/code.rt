// Codes, and their numbers.

// What an answer says: that all is well, or the cause of a refusal.
#[derive(Clone, Copy, Debug, PartialEq, Eq)]
pub enum Code {
    // A source or an update is taken.
    Taken,
    // A kind that no frame has, bytes that run out or are left over.
    Bytes,
    // A token, an action or an operand that is not awaited.
    Unawaited,
    // A name or a field that is unknown, ambiguous or taken.
    Name,
    // A number out of its range, or a name that is too long.
    Range,
    // A header with no bits, not of whole bytes, or of more than 32 bytes.
    Header,
    // A packet that is too long, or ends within a header.
    Packet,
    // A ninth block inside one another.
    Depth,
    // A table that may be applied twice on a path.
    Twice,
    // More of something than there may be, or no `first` or `do`.
    Count,
    // A node finds no stage, or is one too many.
    Stage,
    // An update that its table does not allow.
    Table,
    // A packet of a version before the newest is under way.
    Version,
    // No program is loaded, or one is already.
    Program,
    // Want of memory.
    Memory,
}

impl From<Code> for u8 {
    ghost use Rattle.std.specs.Prelude.{◌≡◌};
    ghost use Rattle.codes.specs.Codes.{number_of};

    ghost from_gives = { λ code number. number ≡ number_of code };

    // The number of a code, as frames carry it.
    fn from(code: Code) -> u8 {
        match code {
            Code::Taken => 0,
            Code::Bytes => 1,
            Code::Unawaited => 2,
            Code::Name => 3,
            Code::Range => 4,
            Code::Header => 5,
            Code::Packet => 6,
            Code::Depth => 7,
            Code::Twice => 8,
            Code::Count => 9,
            Code::Stage => 10,
            Code::Table => 11,
            Code::Version => 12,
            Code::Program => 13,
            Code::Memory => 255,
        }
    }
}
