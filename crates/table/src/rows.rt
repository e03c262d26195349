// The entries of one table in two versions: those of the newest, and those of the version before where the last update gave new ones.
ghost use Rattle.std.specs.Prelude.{◌≡◌, [], if◌then◌else◌};
ghost use Rattle.table.specs.Rows.{newest_of, before_of};

use crate::entry::Entry;
use std::alloc::Global;
use std::mem::replace;

#[derive(Drop)]
pub(crate) struct Rows {
    pub(crate) newest: Vec<Entry>,
    pub(crate) before: Option<Vec<Entry>>,
}

impl Rows {
    // No entries.
    pub(crate) fn empty(heap: Global) -> Rows
        ensures newest { newest_of result ≡ [] }
        ensures before { before_of result ≡ [] }
    {
        Rows {
            newest: Vec::new(heap),
            before: None,
        }
    }

    // The entries of the newest version, or of the one before.
    pub(crate) fn of(&self, newest: bool) -> &[Entry]
        ensures { result.now ≡ (if newest then newest_of self.now else before_of self.now) }
    {
        if newest {
            return &self.newest;
        }
        match &self.before {
            Some(entries) => entries,
            None => &self.newest,
        }
    }

    // The version before the newest is forgotten: from now on it is the newest itself.
    pub(crate) fn forget(&mut self)
        ensures newest { newest_of self.new ≡ newest_of self.old }
        ensures before { before_of self.new ≡ newest_of self.old }
    {
        self.before = None;
    }

    // New entries for the newest version; the one before keeps what it has.
    pub(crate) fn give(&mut self, entries: Vec<Entry>)
        ensures newest { newest_of self.new ≡ entries.items }
        ensures before { before_of self.new ≡ before_of self.old }
    {
        let was = replace(&mut self.newest, entries);
        if self.before.is_none() {
            self.before = Some(was);
        }
    }
}
