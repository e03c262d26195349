// Why an update is refused, and at which offset.
ghost use Rattle.std.specs.Prelude.{◌≡◌};
ghost use Rattle.update.specs.declared.fault.Fault.TheVariants.{NoMemory};
ghost use Rattle.codes.specs.Codes.{number_of};
ghost use Rattle.update.specs.Answers.{answer_of};

use codes::answer::Answer;
use codes::code::Code;
use std::alloc::AllocFailed;

#[derive(Clone, Copy, Debug, PartialEq, Eq)]
pub enum Fault {
    // the bytes run out within a number; the offset is that of the end
    RunsOut(usize),
    // bytes are left over
    LeftOver(usize),
    // an action other than set and add
    NoAction(usize),
    // an operand other than a number and a field
    NoOperand(usize),
    // an operand field that isn't there
    NoField(usize),
    // a value or a mask that doesn't fit the field's width
    TooWide(usize),
    // a table that isn't there
    NoTable(usize),
    // a table that was named before in this update
    TableTwice(usize),
    // more entries than the table may have
    TooManyEntries(usize),
    // more than four actions
    TooManyActions(usize),
    // a field that the table may not set
    NotItsField(usize),
    NoMemory,
}

impl<T: Drop> From<AllocFailed<T>> for Fault {
    ghost from_gives = { λ _ f. f ≡ NoMemory };

    fn from(_refused: AllocFailed<T>) -> Fault {
        Fault::NoMemory
    }
}

impl Fault {
    // The code and the offset that stand for it.
    pub fn answer(self) -> Answer
        ensures { (number_of result.code, result.offset) ≡ answer_of self }
    {
        let (code, offset) = match self {
            Fault::RunsOut(at) | Fault::LeftOver(at) => (Code::Bytes, at),
            Fault::NoAction(at) | Fault::NoOperand(at) => (Code::Unawaited, at),
            Fault::NoField(at) => (Code::Name, at),
            Fault::TooWide(at) => (Code::Range, at),
            Fault::NoTable(at)
            | Fault::TableTwice(at)
            | Fault::TooManyEntries(at)
            | Fault::TooManyActions(at)
            | Fault::NotItsField(at) => (Code::Table, at),
            Fault::NoMemory => (Code::Memory, 0),
        };
        Answer { code, offset }
    }
}
