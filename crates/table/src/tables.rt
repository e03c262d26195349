// All tables of a program, each in two versions, and updates of them.
ghost use Rattle.std.specs.Prelude.{◌≡◌, ℕ, Bool, true, false, IfOk, vec_len};
ghost use Rattle.model.specs.Version.{edited, edited_all, empty as empty_in};
ghost use Rattle.model.specs.Version.{Replace};
ghost use Rattle.table.specs.Stands.{entries_of, tables_of, edits_of};
ghost use Rattle.table.specs.Rows.{rows_of};

use crate::entry::{Edit, Entry};
use crate::rows::Rows;
use crate::store::Tables;
use program::field::TableNo;
use std::alloc::{AllocError, Global};

impl Tables {
    // All tables empty.
    pub fn new(heap: Global) -> Result<Tables, AllocError>
        ensures { IfOk result (λ t. ((v : Bool) → tables_of t v ≡ empty_in)) }
    {
        let mut all = Vec::with_capacity(heap, 32)?;
        for _table in 0..32usize {
            all.push(Rows::empty(heap))?;
        }
        Ok(Tables { all })
    }

    // The entries of a table in the newest version, or in the one before.
    pub fn entries(&self, table: TableNo, newest: bool) -> &[Entry]
        ensures { entries_of result.now ≡ tables_of self.now newest table.at }
    {
        self.all[table.at as usize].of(newest)
    }

    // An update makes a new version: the newest becomes the one before. It costs what it carries.
    pub fn update(&mut self, edits: Vec<Edit>)
        ensures newest { tables_of self.new true ≡ edited_all (edits_of edits.items) (tables_of self.old true) }
        ensures before { tables_of self.new false ≡ tables_of self.old true }
    {
        self.forget();
        for edit in edits {
            self.give(edit.table, edit.entries);
        }
    }

    // The version before the newest is forgotten.
    fn forget(&mut self)
        ensures { (v : Bool) → tables_of self.new v ≡ tables_of self.old true }
    {
        for rows in self.all.iter_mut() {
            rows.forget();
        }
    }

    // New entries for one table in the newest version.
    fn give(&mut self, table: TableNo, entries: Vec<Entry>)
        ensures newest { tables_of self.new true ≡ edited (Replace table.at (entries_of entries.items)) (tables_of self.old true) }
        ensures before { tables_of self.new false ≡ tables_of self.old false }
    {
        self.all[table.at as usize].give(entries);
    }
}
