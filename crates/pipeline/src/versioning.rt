// Which version a packet goes by, and a new one.
ghost use Rattle.std.specs.Prelude.{◌≡◌, Bool, not};
ghost use Rattle.model.specs.Version.{updated};
ghost use Rattle.table.specs.Stands.{edits_of};
ghost use Rattle.pipeline.specs.Stands.{version_at, versions_of};

use crate::versions::{Version, Versions};
use table::entry::Edit;

impl Versions {
    // The version that has this bit.
    pub(crate) fn of(&self, version: bool) -> Version<'_>
        ensures program { result.loaded.now ≡ self.now.loaded }
        ensures version { version_at result ≡ versions_of self.now version }
    {
        Version {
            loaded: &self.loaded,
            tables: &self.tables,
            newest: version == self.newest,
        }
    }

    // An update makes a new version: the newest becomes the one before. It costs what it carries.
    pub(crate) fn update(&mut self, edits: Vec<Edit>)
        ensures bit { self.new.newest ≡ not self.old.newest }
        ensures program { self.new.loaded ≡ self.old.loaded }
        ensures newest { versions_of self.new self.new.newest ≡ updated (edits_of edits.items) (versions_of self.old self.old.newest) }
        ensures before { versions_of self.new self.old.newest ≡ versions_of self.old self.old.newest }
    {
        self.tables.update(edits);
        self.newest = !self.newest;
    }
}
