// The answers that can be given while no program is loaded, and their bytes.
ghost use Rattle.std.specs.Prelude.{◌≡◌, ◌++◌, is_ok, if◌then◌else◌};
ghost use Rattle.codes.specs.Codes.{number_of};
ghost use Rattle.frames.specs.Answering.{code_of, offset_of, names_offset, written};

use crate::kind::Kind;
use codes::code::Code;
use std::alloc::AllocError;

#[derive(Clone, Copy, Debug, PartialEq, Eq, Hash)]
pub enum Answer {
    // The input ends within a frame of this kind.
    Cut(Kind),
    // A byte that opens no frame stands where a frame should begin.
    UnknownKind,
    UpdateWithoutProgram,
    PacketWithoutProgram,
}

impl Answer {
    // Appends the answer's frame. For want of memory `out` stays as it is.
    pub fn write(self, out: &mut Vec<u8>) -> Result<(), AllocError>
        ensures { out.new.items ≡ (if is_ok result then out.old.items ++ written self else out.old.items) }
    {
        let code = u8::from(self.code());
        if !self.names_offset() {
            return out.extend_from_slice(&[18, code]);
        }
        let [a, b, c, d] = self.offset().to_be_bytes();
        out.extend_from_slice(&[17, code, a, b, c, d])
    }

    fn code(self) -> Code
        ensures { number_of result ≡ code_of self }
    {
        match self {
            Answer::Cut(_) | Answer::UnknownKind => Code::Bytes,
            Answer::UpdateWithoutProgram | Answer::PacketWithoutProgram => Code::Program,
        }
    }

    // Where in the frame's bytes the fault lies.
    fn offset(self) -> u32
        ensures { result ≡ offset_of self }
    {
        0
    }

    // Whether a source or an update is answered, whose answer says an offset.
    fn names_offset(self) -> bool
        ensures { result ≡ names_offset self }
    {
        matches!(
            self,
            Answer::Cut(Kind::Source | Kind::Update) | Answer::UpdateWithoutProgram
        )
    }
}
