// Writing entries. For want of memory a writer leaves what was there before at the front.
ghost use Rattle.std.specs.Prelude.{[], ◌∷◌, length};
ghost use Rattle.few.specs.Few.{items_of};
ghost use Rattle.program.specs.Stands.{operand_of, action_of};
ghost use Rattle.table.specs.Stands.{pattern_of, patterns_of, entry_of, entries_of, actions_of};
ghost use Rattle.encoding.specs.Encoded.{word, operand_bytes, action_bytes, actions_bytes, pattern_bytes, patterns_bytes, entry_bytes, entries_bytes};
ghost use Rattle.encoding.specs.Appending.{Appends};

use few::few::Few;
use program::action::{Action, Operand};
use program::field::FieldNo;
use std::alloc::AllocError;
use table::entry::{Entry, Pattern};

// The entries of a table.
pub(crate) fn entries(out: &mut Vec<u8>, entries: &[Entry]) -> Result<(), AllocError>
    ensures { Appends out.old.items out.new.items (entries_bytes (entries_of entries.now)) result }
{
    for one in entries {
        entry(out, one)?;
    }
    Ok(())
}

// The patterns, how many actions there are, and the actions.
fn entry(out: &mut Vec<u8>, entry: &Entry) -> Result<(), AllocError>
    ensures { Appends out.old.items out.new.items (entry_bytes (entry_of entry.now)) result }
{
    patterns(out, entry.patterns.as_slice())?;
    actions(out, &entry.actions)
}

// A value and a mask for each field that is looked at.
fn patterns(out: &mut Vec<u8>, patterns: &[Pattern]) -> Result<(), AllocError>
    ensures { Appends out.old.items out.new.items (patterns_bytes (patterns_of patterns.now)) result }
{
    for one in patterns {
        pattern(out, *one)?;
    }
    Ok(())
}

fn pattern(out: &mut Vec<u8>, pattern: Pattern) -> Result<(), AllocError>
    ensures { Appends out.old.items out.new.items (pattern_bytes (pattern_of pattern)) result }
{
    number(out, pattern.value)?;
    number(out, pattern.mask)
}

// How many actions there are, and the actions.
fn actions(out: &mut Vec<u8>, actions: &Few<Action, 4>) -> Result<(), AllocError>
    ensures { Appends out.old.items out.new.items (length (items_of actions.now) ∷ actions_bytes (actions_of (items_of actions.now))) result }
{
    bytes(out, &[actions.as_slice().len() as u8])?;
    for one in actions.as_slice() {
        action(out, *one)?;
    }
    Ok(())
}

// 1 sets, 2 adds.
fn action(out: &mut Vec<u8>, action: Action) -> Result<(), AllocError>
    ensures { Appends out.old.items out.new.items (action_bytes (action_of action)) result }
{
    match action {
        Action::Set(field, operand) => change(out, 1, field, operand),
        Action::Add(field, operand) => change(out, 2, field, operand),
    }
}

// A number is 0 and four bytes, a field is 1 and its number.
fn change(out: &mut Vec<u8>, kind: u8, field: FieldNo, operand: Operand) -> Result<(), AllocError>
    ensures { Appends out.old.items out.new.items (kind ∷ (field.at ∷ operand_bytes (operand_of operand))) result }
{
    match operand {
        Operand::Number(n) => {
            bytes(out, &[kind, field.at, 0])?;
            number(out, n)
        }
        Operand::Field(f) => bytes(out, &[kind, field.at, 1, f.at]),
    }
}

// Four bytes, the high one first.
fn number(out: &mut Vec<u8>, n: u32) -> Result<(), AllocError>
    ensures { Appends out.old.items out.new.items (word n) result }
{
    bytes(out, &n.to_be_bytes())
}

pub(crate) fn bytes(out: &mut Vec<u8>, more: &[u8]) -> Result<(), AllocError>
    ensures { Appends out.old.items out.new.items more.now result }
{
    out.extend_from_slice(more)
}
