// What the first byte of a frame, its kind byte, opens.
ghost use Rattle.std.specs.Prelude.{◌≡◌};
ghost use Rattle.frames.specs.Reading.{opens};

use crate::kind::Kind;

#[derive(Clone, Copy, Debug, PartialEq, Eq, Hash)]
pub enum Opening {
    // A frame that carries bytes behind a length.
    Framed(Kind),
    // A pause, which ends with its kind byte.
    Pause,
    // No frame.
    Unknown,
}

impl From<u8> for Opening {
    ghost from_gives = { λ byte opening. opening ≡ opens byte };

    fn from(byte: u8) -> Opening {
        match byte {
            1 => Opening::Framed(Kind::Source),
            2 => Opening::Framed(Kind::Update),
            3 => Opening::Framed(Kind::Packet),
            4 => Opening::Pause,
            _ => Opening::Unknown,
        }
    }
}
