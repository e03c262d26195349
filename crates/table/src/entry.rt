// Entries of a table.
use few::few::Few;
use program::action::Action;
use program::field::TableNo;

// What an entry wants of one field: its bits under the mask are those of the value.
#[derive(Clone, Copy, Debug, PartialEq, Eq, Default)]
pub struct Pattern {
    pub value: u32,
    pub mask: u32,
}

// A pattern for each field that the table looks at, in that order, and what is done: up to four actions, one after the other.
#[derive(Clone, Copy)]
pub struct Entry {
    pub patterns: Few<Pattern, 4>,
    pub actions: Few<Action, 4>,
}

// One edit of an update: all entries of a table are replaced.
#[derive(Drop)]
pub struct Edit {
    pub table: TableNo,
    pub entries: Vec<Entry>,
}
