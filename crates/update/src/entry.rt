// Entries of a table.
ghost use Rattle.std.specs.Prelude.{◌≡◌, ℕ, ◌≤◌, List, []};
ghost use Rattle.program.specs.Stands.{declarations_of, table_of};
ghost use Rattle.table.specs.Stands.{pattern_of, entry_of};
ghost use Rattle.update.specs.Decoding.{fitting_at, pattern_at, patterns_at, entry_at, actions_at};
ghost use Rattle.update.specs.Stands.{Gives, actions_listed, patterns_listed};

use crate::cursor::Cursor;
use crate::fault::Fault;
use crate::terms::Terms;
use few::few::Few;
use program::action::Action;
use program::field::Width;
use table::entry::{Entry, Pattern};

impl Cursor<'_> {
    // A number that fits so many bits.
    fn fitting(&mut self, width: Width) -> Result<u32, Fault>
        ensures { Gives (fitting_at width.bits self.old.at self.old.rest.now) result (λ x. x) self.new.at self.new.rest.now }
    {
        let at = self.at;
        let x = self.word()?;
        if u64::from(x) >= 1u64 << width.bits {
            return Err(Fault::TooWide(at));
        }
        Ok(x)
    }

    // The actions of an entry.
    fn actions(&mut self, terms: Terms<'_>, count: u8) -> Result<Few<Action, 4>, Fault>
        requires { count ≤ 4 }
        ensures { Gives (actions_at (declarations_of terms.entry.declarations.now) (table_of terms.entry.table.now) count [] self.old.at self.old.rest.now) result actions_listed self.new.at self.new.rest.now }
    {
        // An array first, and its length at last: pushed one by one, what was just written is read back in other pieces, which takes a third longer.
        let mut all = [Action::default(); 4];
        for k in 0..count {
            let action = self.action(terms)?;
            all[k as usize] = action;
        }
        Ok(Few {
            count: count as usize,
            all,
        })
    }

    // A pattern for each field that the table looks at.
    fn patterns(&mut self, terms: Terms<'_>) -> Result<Few<Pattern, 4>, Fault>
        ensures { Gives (patterns_at (declarations_of terms.entry.declarations.now) (table_of terms.entry.table.now).looks [] self.old.at self.old.rest.now) result patterns_listed self.new.at self.new.rest.now }
    {
        let mut all = [Pattern::default(); 4];
        let mut count = 0usize;
        for field in &terms.table.looks {
            if count == all.len() {
                return Err(Fault::NoMemory);
            }
            let pattern = self.pattern(terms.declarations.widths.get(*field))?;
            all[count] = pattern;
            count += 1;
        }
        Ok(Few { count, all })
    }

    // A value and a mask that fit so many bits.
    fn pattern(&mut self, width: Width) -> Result<Pattern, Fault>
        ensures { Gives (pattern_at width.bits self.old.at self.old.rest.now) result pattern_of self.new.at self.new.rest.now }
    {
        let value = self.fitting(width)?;
        let mask = self.fitting(width)?;
        Ok(Pattern { value, mask })
    }

    // One entry.
    pub(crate) fn entry(&mut self, terms: Terms<'_>) -> Result<Entry, Fault>
        ensures { Gives (entry_at (declarations_of terms.entry.declarations.now) (table_of terms.entry.table.now) self.old.at self.old.rest.now) result entry_of self.new.at self.new.rest.now }
    {
        let patterns = self.patterns(terms)?;
        let count = self.count()?;
        let actions = self.actions(terms, count)?;
        Ok(Entry { patterns, actions })
    }
}
