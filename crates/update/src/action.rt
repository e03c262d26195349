// The actions of an entry.
ghost use Rattle.std.specs.Prelude.{◌≡◌, ℕ, ◌≤◌, cond, List, IfOk, ◌==◌, nat_lt, slice_index};
ghost use Rattle.std.specs.List.{find};
ghost use Rattle.program.specs.Stands.{FieldNo, bits_of, operand_of, action_of, declarations_of, table_of, numbers_of};
ghost use Rattle.update.specs.Decoded.{Refused, NoField};
ghost use Rattle.update.specs.Decoding.{among, is_there, field_at, operand_at, change_by, settable_at, action_at, count_at};
ghost use Rattle.update.specs.Stands.{Gives, Found, change_of};

use crate::cursor::Cursor;
use crate::fault::Fault;
use crate::terms::Terms;
use program::action::{Action, Operand};
use program::declarations::{Declarations, TableDeclaration};
use program::field::{FieldNo, Widths};

// Which of the two actions it is.
#[derive(Clone, Copy)]
pub(crate) enum Change {
    Set,
    Add,
}

impl Cursor<'_> {
    // One action.
    pub(crate) fn action(&mut self, terms: Terms<'_>) -> Result<Action, Fault>
        ensures { Gives (action_at (declarations_of terms.entry.declarations.now) (table_of terms.entry.table.now) self.old.at self.old.rest.now) result action_of self.new.at self.new.rest.now }
    {
        let at = self.at;
        let change = change_by(at, self.byte()?)?;
        let field = self.settable(terms.table)?;
        let operand = self.operand(terms.declarations)?;
        Ok(changed(change, field, operand))
    }

    // How many actions an entry has.
    pub(crate) fn count(&mut self) -> Result<u8, Fault>
        ensures gives { Gives (count_at self.old.at self.old.rest.now) result (λ x. x) self.new.at self.new.rest.now }
        ensures few { IfOk result (λ n. n ≤ 4) }
    {
        let at = self.at;
        let n = self.byte()?;
        if n > 4 {
            return Err(Fault::TooManyActions(at));
        }
        Ok(n)
    }

    // A number or a field.
    fn operand(&mut self, declarations: &Declarations) -> Result<Operand, Fault>
        ensures { Gives (operand_at (declarations_of declarations.now) self.old.at self.old.rest.now) result operand_of self.new.at self.new.rest.now }
    {
        let from = self.at;
        match self.byte()? {
            0 => Ok(Operand::Number(self.word()?)),
            1 => Ok(Operand::Field(self.field(declarations)?)),
            _ => Err(Fault::NoOperand(from)),
        }
    }

    // A field that is there.
    fn field(&mut self, declarations: &Declarations) -> Result<FieldNo, Fault>
        ensures { Gives (field_at (declarations_of declarations.now) self.old.at self.old.rest.now) result (λ x. x.at) self.new.at self.new.rest.now }
    {
        let at = self.at;
        let f = self.byte()?;
        known(declarations.widths, f).ok_or(Fault::NoField(at))
    }

    // A field that the table may set.
    fn settable(&mut self, table: &TableDeclaration) -> Result<FieldNo, Fault>
        ensures { Gives (settable_at (table_of table.now) self.old.at self.old.rest.now) result (λ x. x.at) self.new.at self.new.rest.now }
    {
        let at = self.at;
        let f = self.byte()?;
        found(&table.sets, f).ok_or(Fault::NotItsField(at))
    }
}

// 1 sets and 2 adds.
fn change_by(at: usize, kind: u8) -> Result<Change, Fault>
    ensures { (behind : ℕ) (rest : List ℕ) → Gives (λ k. change_by at kind k behind rest) result change_of behind rest }
{
    match kind {
        1 => Ok(Change::Set),
        2 => Ok(Change::Add),
        _ => Err(Fault::NoAction(at)),
    }
}

fn changed(change: Change, field: FieldNo, operand: Operand) -> Action
    ensures { action_of result ≡ change_of change field.at (operand_of operand) }
{
    match change {
        Change::Set => Action::Set(field, operand),
        Change::Add => Action::Add(field, operand),
    }
}

// A field is there if it has a width.
fn known(widths: Widths, f: u8) -> Option<FieldNo>
    ensures { Found result (nat_lt 0 (slice_index (bits_of widths) f)) f }
{
    let field = FieldNo::new(f as usize)?;
    if widths.get(field).bits == 0 {
        return None;
    }
    Some(field)
}

// The field of this number among others.
fn found(fields: &[FieldNo], f: u8) -> Option<FieldNo>
    ensures { result ≡ find (λ (x : FieldNo). x.at == f) fields.now }
{
    fields.iter().copied().find(|field| field.at == f)
}
