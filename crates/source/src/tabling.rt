// Tables.
ghost use Rattle.std.specs.Prelude.{◌≡◌, MatchResult};
ghost use Rattle.token.specs.Stands.{token_of};
ghost use Rattle.program.specs.Stands.{TableNo};
ghost use Rattle.source.specs.declared.fault.Fault.TheVariants.{Memory};
ghost use Rattle.source.specs.Names.{entry_of};
ghost use Rattle.source.specs.Tabling.{add_table, declare as declare_at, table_name, list_start, lines as lines_at, in_table as in_table_at};
ghost use Rattle.source.specs.Using.{behind_list, add_listed};
ghost use Rattle.source.specs.Stands.{seen_of, part_of, in_table_of};
ghost use Rattle.source.specs.Does.{Does};

use crate::fault::Fault;
use crate::looks::{expect, expect_word, fresh, is_sign, number, room, word};
use crate::lookup::find;
use crate::name::TableName;
use crate::phase::{Part, Phase, Purpose, TablePhase};
use crate::seen::Seen;
use program::declarations::{MatchKind, TableDeclaration};
use program::field::{FieldNo, TableNo};
use std::mem;
use token::token::{Sign, Token};

// What follows a list of a table.
pub fn behind_list(part: Part) -> TablePhase
    ensures { in_table_of result ≡ behind_list (part_of part) }
{
    match part {
        Part::Looks => TablePhase::SetsWord,
        Part::Sets => TablePhase::LinesWord,
    }
}

impl Seen {
    fn add_table(&mut self, table: TableName) -> Result<(), Fault>
        ensures { MatchResult result (λ _. seen_of self.new ≡ add_table (entry_of table) (seen_of self.old)) (λ f. f ≡ Memory) }
    {
        self.names.tables.push(table)?;
        Ok(())
    }

    pub fn add_listed(&mut self, part: Part, field: FieldNo) -> Result<(), Fault>
        ensures { MatchResult result (λ _. seen_of self.new ≡ add_listed (part_of part) field.at (seen_of self.old)) (λ f. f ≡ Memory) }
    {
        match part {
            Part::Looks => self.tables.looks.push(field)?,
            Part::Sets => self.tables.sets.push(field)?,
        }
        Ok(())
    }

    // The table that has been read, with its lists.
    fn declare(&mut self, lines: u16) -> Result<(), Fault>
        ensures { MatchResult result (λ _. seen_of self.new ≡ declare_at lines (seen_of self.old)) (λ f. f ≡ Memory) }
    {
        let heap = self.tables.heap;
        let looks = mem::replace(&mut self.tables.looks, Vec::new(heap));
        let sets = mem::replace(&mut self.tables.sets, Vec::new(heap));
        self.tables.declared.push(TableDeclaration {
            kind: MatchKind::Ternary,
            looks,
            sets,
            lines,
        })?;
        Ok(())
    }

    fn table_name(&mut self, x: Token<'_>) -> Result<Phase, Fault>
        ensures { Does (table_name (seen_of self.old) (token_of x.entry)) result self.new }
    {
        let word = word(x)?;
        let name = fresh(find(&self.names.tables, word).is_some(), x.at, word)?;
        let no = room(self.names.tables.len(), x.at)?;
        self.add_table(TableName { name, no })?;
        Ok(Phase::InTable(TablePhase::TableOpen))
    }

    // A field, or the end of an empty list.
    fn list_start(&mut self, part: Part, x: Token<'_>) -> Result<Phase, Fault>
        ensures { Does (list_start (part_of part) (seen_of self.old) (token_of x.entry)) result self.new }
    {
        if is_sign(x, Sign::Semicolon) {
            return Ok(Phase::InTable(behind_list(part)));
        }
        self.field_named(Purpose::Listed(part), x)
    }

    fn lines(&mut self, x: Token<'_>) -> Result<Phase, Fault>
        ensures { Does (lines_at (seen_of self.old) (token_of x.entry)) result self.new }
    {
        let lines = number(x)?;
        if lines == 0 || lines > 256 {
            return Err(Fault::Range { at: x.at });
        }
        Ok(Phase::InTable(TablePhase::LinesEnd(lines as u16)))
    }

    pub fn in_table(&mut self, phase: TablePhase, x: Token<'_>) -> Result<Phase, Fault>
        ensures { Does (in_table_at (in_table_of phase) (seen_of self.old) (token_of x.entry)) result self.new }
    {
        match phase {
            TablePhase::TableName => self.table_name(x),
            TablePhase::TableOpen => {
                expect(x, Sign::Open)?;
                Ok(Phase::InTable(TablePhase::LookWord))
            }
            TablePhase::LookWord => {
                expect_word(x, b"look")?;
                Ok(Phase::InTable(TablePhase::ListStart(Part::Looks)))
            }
            TablePhase::SetsWord => {
                expect_word(x, b"sets")?;
                Ok(Phase::InTable(TablePhase::ListStart(Part::Sets)))
            }
            TablePhase::ListStart(part) => self.list_start(part, x),
            TablePhase::LinesWord => {
                expect_word(x, b"lines")?;
                Ok(Phase::InTable(TablePhase::Lines))
            }
            TablePhase::Lines => self.lines(x),
            TablePhase::LinesEnd(lines) => {
                expect(x, Sign::Semicolon)?;
                Ok(Phase::InTable(TablePhase::TableClose(lines)))
            }
            TablePhase::TableClose(lines) => {
                expect(x, Sign::Close)?;
                self.declare(lines)?;
                Ok(Phase::Item)
            }
        }
    }
}
