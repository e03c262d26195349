// Operands, tests and actions.
use crate::field::FieldNo;

// A field of the packet, or a number.
#[derive(Clone, Copy, Debug, PartialEq, Eq)]
pub enum Operand {
    Field(FieldNo),
    Number(u32),
}

// A field equals an operand, or is less than it.
#[derive(Clone, Copy, Debug, PartialEq, Eq)]
pub enum Test {
    Equals(FieldNo, Operand),
    Less(FieldNo, Operand),
}

// Set a field to an operand, or add an operand to it, modulo 2 to the field's width.
#[derive(Clone, Copy, Debug, PartialEq, Eq)]
pub enum Action {
    Set(FieldNo, Operand),
    Add(FieldNo, Operand),
}

// What stands in the unused places of a row of actions.
impl Default for Action {
    ghost use Rattle.std.specs.Prelude.{◌≡◌};
    ghost use Rattle.model.specs.Action.{Set, Number};
    ghost use Rattle.program.specs.Stands.{action_of};

    ghost is_default = { λ a. action_of a ≡ Set 0 (Number 0) };

    fn default() -> Action {
        Action::Set(FieldNo { at: 0 }, Operand::Number(0))
    }
}
