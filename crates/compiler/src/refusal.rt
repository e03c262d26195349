// Why a source is refused.
ghost use Rattle.std.specs.Prelude.{◌≡◌};
ghost use Rattle.codes.specs.Codes.{number_of};
ghost use Rattle.compiler.specs.Refusals.{answer_of};

use codes::answer::Answer;
use codes::code::Code;
use source::fault::Fault;

#[derive(Clone, Copy, Debug, PartialEq, Eq)]
pub enum Refusal {
    // A fault that was found while reading.
    Unread(Fault),
    // A node finds no stage, or is one too many: the offset of the first such statement.
    Unplaced(u32),
    // Want of memory.
    Memory,
}

impl Refusal {
    // The code and the offset that stand for it.
    pub fn answer(self) -> Answer
        ensures { (number_of result.code, result.offset) ≡ answer_of self }
    {
        let (code, offset) = match self {
            Refusal::Unread(fault) => return fault.answer(),
            Refusal::Unplaced(offset) => (Code::Stage, offset as usize),
            Refusal::Memory => (Code::Memory, 0),
        };
        Answer { code, offset }
    }
}
