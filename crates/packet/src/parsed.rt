// A packet taken apart, and why one is refused.
ghost use Rattle.std.specs.Prelude.{◌≡◌};
ghost use Rattle.codes.specs.Codes.{number_of};
ghost use Rattle.packet.specs.Contents.{code as code_in};

use codes::code::Code;
use program::field::Fields;

// The values of the fields, which headers are there, bit i for header i, and the bytes behind them.
#[derive(Clone, Copy)]
pub struct Parsed<'a> {
    pub fields: Fields,
    pub present: u8,
    pub payload: &'a [u8],
}

// Why a packet is refused.
#[derive(Clone, Copy, Debug, PartialEq, Eq, Hash)]
pub enum Refused {
    EndsWithinHeader,
    TooLong,
}

impl Refused {
    // The code with which the refusal is answered.
    pub fn code(self) -> Code
        ensures { number_of result ≡ code_in self }
    {
        match self {
            Refused::EndsWithinHeader | Refused::TooLong => Code::Packet,
        }
    }
}
