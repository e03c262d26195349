// The edits of an update.
ghost use Rattle.std.specs.Prelude.{◌≡◌, ℕ, ◌<◌, List, [], ◌∷◌, ◌++◌, ◌==◌, vec_len};
ghost use Rattle.program.specs.Stands.{declarations_of, table_of};
ghost use Rattle.table.specs.Stands.{entries_of, edit_of, edits_of};
ghost use Rattle.std.specs.List.{list_any};
ghost use Rattle.table.specs.declared.entry.Edit.{Edit};
ghost use Rattle.update.specs.Decoding.{among, named, entries_at, size_at, table_at, edit_at, edits_at};
ghost use Rattle.update.specs.Stands.{Gives, entries_listed, edits_listed};

use crate::cursor::Cursor;
use crate::fault::Fault;
use crate::terms::Terms;
use program::declarations::Declarations;
use program::field::TableNo;
use std::alloc::Global;
use table::entry::{Edit, Entry};

impl Cursor<'_> {
    // So many edits. Memory and declarations come apart: of the two, an entry is read by the second alone.
    pub(crate) fn edits(
        &mut self,
        heap: Global,
        declarations: &Declarations,
        count: u8,
    ) -> Result<Vec<Edit>, Fault>
        ensures { Gives (edits_at (declarations_of declarations.now) (vec_len declarations.now.tables) count [] self.old.at self.old.rest.now) result edits_listed self.new.at self.new.rest.now }
    {
        let mut edits = Vec::new(heap);
        for _turn in 0..count {
            let edit = self.edit(heap, declarations, &edits)?;
            edits.push(edit)?;
        }
        Ok(edits)
    }

    // A table and all its new entries.
    fn edit(
        &mut self,
        heap: Global,
        declarations: &Declarations,
        before: &[Edit],
    ) -> Result<Edit, Fault>
        ensures { Gives (edit_at (declarations_of declarations.now) (vec_len declarations.now.tables) (edits_of before.now) self.old.at self.old.rest.now) result edit_of self.new.at self.new.rest.now }
    {
        let table = self.table(declarations, before)?;
        let count = self.size(declarations, table)?;
        let entries = self.entries_of(heap, declarations, table, count)?;
        Ok(Edit { table, entries })
    }

    // A table that is there, and was not named before in this update.
    fn table(&mut self, declarations: &Declarations, before: &[Edit]) -> Result<TableNo, Fault>
        ensures { Gives (table_at (vec_len declarations.now.tables) (edits_of before.now) self.old.at self.old.rest.now) result (λ x. x.at) self.new.at self.new.rest.now }
    {
        let at = self.at;
        let n = self.byte()?;
        if n as usize >= declarations.tables.len() {
            return Err(Fault::NoTable(at));
        }
        if is_named(before, n) {
            return Err(Fault::TableTwice(at));
        }
        // no program has more than 32 tables
        TableNo::new(n as usize).ok_or(Fault::NoMemory)
    }

    // How many entries a table is given.
    fn size(&mut self, declarations: &Declarations, table: TableNo) -> Result<u16, Fault>
        ensures { Gives (size_at ((declarations_of declarations.now).table table.at) self.old.at self.old.rest.now) result (λ x. x) self.new.at self.new.rest.now }
    {
        let at = self.at;
        let n = self.half()?;
        if n > lines_of(declarations, table) {
            return Err(Fault::TooManyEntries(at));
        }
        Ok(n)
    }

    // So many entries of a table, by its number.
    fn entries_of(
        &mut self,
        heap: Global,
        declarations: &Declarations,
        table: TableNo,
        count: u16,
    ) -> Result<Vec<Entry>, Fault>
        ensures { Gives (entries_at (declarations_of declarations.now) ((declarations_of declarations.now).table table.at) count [] self.old.at self.old.rest.now) result entries_listed self.new.at self.new.rest.now }
    {
        let table = declarations
            .tables
            .get(table.at as usize)
            .ok_or(Fault::NoMemory)?;
        self.entries(
            heap,
            Terms {
                declarations,
                table,
            },
            count,
        )
    }

    // So many entries of a table.
    fn entries(&mut self, heap: Global, terms: Terms<'_>, count: u16) -> Result<Vec<Entry>, Fault>
        ensures { Gives (entries_at (declarations_of terms.entry.declarations.now) (table_of terms.entry.table.now) count [] self.old.at self.old.rest.now) result entries_listed self.new.at self.new.rest.now }
    {
        let mut entries = Vec::new(heap);
        for _turn in 0..count {
            let entry = self.entry(terms)?;
            entries.push(entry)?;
        }
        Ok(entries)
    }
}

// How many entries a table may have; one that isn't declared has none.
fn lines_of(declarations: &Declarations, table: TableNo) -> u16
    ensures { result ≡ ((declarations_of declarations.now).table table.at).lines }
{
    declarations
        .tables
        .get(table.at as usize)
        .map_or(0, |declared| declared.lines)
}

// Whether a table was named.
fn is_named(edits: &[Edit], n: u8) -> bool
    ensures { result ≡ list_any (λ (g : Edit). g.table.at == n) edits.now }
{
    edits.iter().any(|edit| edit.table.at == n)
}
