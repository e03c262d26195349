// What operands, tests and actions do with a packet's fields.
ghost use Rattle.std.specs.Prelude.{◌≡◌, ◌%◌, ◌^◌};
ghost use Rattle.model.specs.Packet.{Packet};
ghost use Rattle.model.specs.Action.{value as value_in, passes as passes_in, act as act_in};
ghost use Rattle.program.specs.Stands.{over, operand_of, test_of, action_of, declarations_of};

use crate::action::{Action, Operand, Test};
use crate::declarations::Declarations;
use crate::field::{Fields, Width};

// The low bits of a number, as many as a field has.
fn low_bits(x: u64, width: Width) -> u32
    ensures { result ≡ x % (2 ^ width.bits) }
{
    (x % (1u64 << width.bits)) as u32
}

// The value of an operand.
fn value(fields: &Fields, operand: Operand) -> u32
    ensures { (base : Packet) → result ≡ value_in (operand_of operand) (over fields.now base) }
{
    match operand {
        Operand::Field(field) => fields.get(field),
        Operand::Number(n) => n,
    }
}

// Whether a test passes.
pub fn passes(fields: &Fields, test: Test) -> bool
    ensures { (base : Packet) → result ≡ passes_in (test_of test) (over fields.now base) }
{
    match test {
        Test::Equals(field, operand) => fields.get(field) == value(fields, operand),
        Test::Less(field, operand) => fields.get(field) < value(fields, operand),
    }
}

// An action on the fields.
pub fn act(fields: &mut Fields, declarations: &Declarations, action: Action)
    ensures { (base : Packet) → over fields.new base ≡ act_in (declarations_of declarations.now) (action_of action) (over fields.old base) }
{
    match action {
        Action::Set(field, operand) => {
            let x = value(fields, operand);
            fields.set(field, low_bits(x as u64, declarations.widths.get(field)));
        }
        Action::Add(field, operand) => {
            let sum = fields.get(field) as u64 + value(fields, operand) as u64;
            fields.set(field, low_bits(sum, declarations.widths.get(field)));
        }
    }
}
