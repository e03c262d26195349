// What a program declares: the widths of its fields, and its tables.
use crate::field::{FieldNo, Widths};

// How a table picks among its entries. Ternary: the first whose values agree with the fields on all bits of its masks.
#[derive(Clone, Copy, Debug, PartialEq, Eq)]
pub enum MatchKind {
    Ternary,
}

// A table: how it matches, what it looks at, what its entries may change, and how many entries it may have.
#[derive(Drop)]
pub struct TableDeclaration {
    pub kind: MatchKind,
    pub looks: Vec<FieldNo>,
    pub sets: Vec<FieldNo>,
    pub lines: u16,
}

#[derive(Drop)]
pub struct Declarations {
    pub widths: Widths,
    pub tables: Vec<TableDeclaration>,
}
