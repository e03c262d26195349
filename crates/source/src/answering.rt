// How a fault is answered.
ghost use Rattle.std.specs.Prelude.{◌≡◌};
ghost use Rattle.codes.specs.Codes.{told_of};
ghost use Rattle.source.specs.Faults.{answer_of};

use crate::fault::Fault;
use codes::answer::Answer;
use codes::code::Code;

impl Fault {
    // The code of a fault, and its offset.
    pub fn answer(self) -> Answer
        ensures { told_of result ≡ answer_of self }
    {
        let (code, offset) = match self {
            Fault::Unawaited { at } => (Code::Unawaited, at),
            Fault::Name { at } => (Code::Name, at),
            Fault::Range { at } => (Code::Range, at),
            Fault::Header { at } => (Code::Header, at),
            Fault::Depth { at } => (Code::Depth, at),
            Fault::Twice { at } => (Code::Twice, at),
            Fault::Count { at } => (Code::Count, at),
            Fault::Memory => (Code::Memory, 0),
        };
        Answer { code, offset }
    }
}
