// Which entry of a table a packet takes, and what it has done.
ghost use Rattle.std.specs.Prelude.{◌≡◌, ◌<◌, length, position, zip, IfSome, slice_index, slice_index_or};
ghost use Rattle.std.specs.List.{list_all};
ghost use Rattle.std.specs.Option.{unwrap_or};
ghost use Rattle.few.specs.Few.{items_of};
ghost use Rattle.model.specs.Packet.{Packet};
ghost use Rattle.model.specs.Action.{acts as acts_in};
ghost use Rattle.model.specs.Table.{fits as fits_in, chosen as chosen_in, agrees as agrees_in, no_entry};
ghost use Rattle.program.specs.Stands.{over, numbers_of, table_of, declarations_of};
ghost use Rattle.model.specs.Meaning.{apply as apply_in};
ghost use Rattle.table.specs.declared.entry.Entry.{Entry as EntryIn};
ghost use Rattle.table.specs.Stands.{pattern_of, patterns_of, entry_of, entries_of, actions_of, tables_of};

use crate::entry::{Entry, Pattern};
use crate::store::Tables;
use program::acting::act;
use program::action::Action;
use program::declarations::{Declarations, MatchKind, TableDeclaration};
use program::field::{FieldNo, Fields, TableNo};

// The index of the entry that a table takes for these fields, if it takes one.
pub fn chosen(table: &TableDeclaration, entries: &[Entry], fields: &Fields) -> Option<usize>
    ensures index { (base : Packet) → unwrap_or result (length entries.now) ≡ chosen_in (table_of table.now) (entries_of entries.now) (over fields.now base) }
    ensures within { IfSome result (λ at. at < length entries.now) }
{
    match table.kind {
        MatchKind::Ternary => first_fit(&table.looks, entries, fields),
    }
}

// A table is applied to the fields: it looks at those of `seen`.
pub fn apply(
    fields: &mut Fields,
    seen: &Fields,
    declarations: &Declarations,
    tables: &Tables,
    table: TableNo,
    newest: bool,
)
    ensures { (base : Packet) → over fields.new base ≡ apply_in (declarations_of declarations.now) (tables_of tables.now newest) table.at (over seen.now base) (over fields.old base) }
{
    let entries = tables.entries(table, newest);
    let at = chosen_for(declarations, table, entries, seen);
    act_by(fields, declarations, entries, at);
}

// The index of the entry that a table takes, by its number. A table that isn't declared looks at nothing, and takes its first entry.
fn chosen_for(
    declarations: &Declarations,
    table: TableNo,
    entries: &[Entry],
    fields: &Fields,
) -> Option<usize>
    ensures { (base : Packet) → unwrap_or result (length entries.now) ≡ chosen_in ((declarations_of declarations.now).table table.at) (entries_of entries.now) (over fields.now base) }
{
    match declarations.tables.get(table.at as usize) {
        Some(declared) => chosen(declared, entries, fields),
        None => Some(0),
    }
}

// What the entry at an index does to the fields; where there is none, nothing.
fn act_by(fields: &mut Fields, declarations: &Declarations, entries: &[Entry], at: Option<usize>)
    ensures { (base : Packet) → over fields.new base ≡ acts_in (declarations_of declarations.now) (slice_index_or (entries_of entries.now) (unwrap_or at (length entries.now)) no_entry).actions (over fields.old base) }
{
    let Some(at) = at else {
        return;
    };
    if let Some(entry) = entries.get(at) {
        act_all(fields, declarations, entry.actions.as_slice());
    }
}

// Whether a field agrees with a pattern on all bits of its mask: both sides are masked.
fn agrees(fields: &Fields, field: FieldNo, pattern: Pattern) -> bool
    ensures { result ≡ agrees_in (pattern_of pattern) (slice_index fields.now.of field.at) }
{
    let x = fields.get(field);
    x & pattern.mask == pattern.value & pattern.mask
}

// Whether these patterns fit the fields that are looked at. The first field is compared apart: most entries differ there, and through the chain alone a look-up takes longer.
fn fits(looks: &[FieldNo], patterns: &[Pattern], fields: &Fields) -> bool
    ensures { result ≡ list_all (λ p. agrees_in (pattern_of p.1) (slice_index fields.now.of p.0.at)) (zip looks.now patterns.now) }
{
    let [field, looks @ ..] = looks else {
        return true;
    };
    let [pattern, patterns @ ..] = patterns else {
        return true;
    };
    agrees(fields, *field, *pattern) && agree_all(looks, patterns, fields)
}

// Whether each of these fields agrees with its pattern.
fn agree_all(looks: &[FieldNo], patterns: &[Pattern], fields: &Fields) -> bool
    ensures { result ≡ list_all (λ p. agrees_in (pattern_of p.1) (slice_index fields.now.of p.0.at)) (zip looks.now patterns.now) }
{
    looks
        .iter()
        .zip(patterns)
        .all(|(field, pattern)| agrees(fields, *field, *pattern))
}

// The index of the first entry that fits the fields.
fn first_fit(looks: &[FieldNo], entries: &[Entry], fields: &Fields) -> Option<usize>
    ensures { result ≡ position (λ e. list_all (λ p. agrees_in (pattern_of p.1) (slice_index fields.now.of p.0.at)) (zip looks.now (items_of e.patterns))) entries.now }
{
    entries
        .iter()
        .position(|entry| fits(looks, entry.patterns.as_slice(), fields))
}

// The actions in order, each on the fields as the one before has left them.
fn act_all(fields: &mut Fields, declarations: &Declarations, actions: &[Action])
    ensures { (base : Packet) → over fields.new base ≡ acts_in (declarations_of declarations.now) (actions_of actions.now) (over fields.old base) }
{
    for action in actions {
        act(fields, declarations, *action);
    }
}
