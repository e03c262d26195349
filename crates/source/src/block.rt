// Blocks that are open.
ghost use Rattle.std.specs.Prelude.{◌≡◌, bit_or};
ghost use Rattle.source.specs.Bodies.{holds, insert, row};
ghost use Rattle.source.specs.State.{If, Skip};
ghost use Rattle.source.specs.Stands.{row_of};
ghost use Rattle.program.specs.Stands.{test_of};

use program::action::Test;
use program::field::TableNo;
use program::statement::{Kind, Statement};

// A set of tables, as the bits of a number.
#[derive(Clone, Copy, Debug, PartialEq, Eq)]
pub struct TableSet {
    pub bits: u32,
}

impl TableSet {
    pub(crate) fn holds(self, table: TableNo) -> bool
        ensures { result ≡ holds self.bits table.at }
    {
        self.bits & (1 << table.at) != 0
    }

    pub(crate) fn with(self, table: TableNo) -> TableSet
        ensures { result.bits ≡ insert self.bits table.at }
    {
        TableSet {
            bits: self.bits | (1 << table.at),
        }
    }

    pub(crate) fn union(self, other: TableSet) -> TableSet
        ensures { result.bits ≡ bit_or self.bits other.bits }
    {
        TableSet {
            bits: self.bits | other.bits,
        }
    }
}

// An if: its index in the row, its offset, its test, and the tables that were applied before it.
#[derive(Clone, Copy)]
pub struct Fork {
    pub index: usize,
    pub offset: u32,
    pub test: Test,
    pub before: TableSet,
}

impl Fork {
    // Its statement, whose no block begins so many statements further.
    pub(crate) fn row(self, past: u32) -> Statement
        ensures { row_of result ≡ row self.offset (If (test_of self.test) past) }
    {
        Statement {
            offset: self.offset,
            kind: Kind::If {
                test: self.test,
                past,
            },
        }
    }
}

// The skip behind a yes block: its index, its offset, and the tables that were applied up to it.
#[derive(Clone, Copy)]
pub struct Detour {
    pub index: usize,
    pub offset: u32,
    pub applied: TableSet,
}

impl Detour {
    // Its statement, which passes over so many.
    pub(crate) fn row(self, past: u32) -> Statement
        ensures { row_of result ≡ row self.offset (Skip past) }
    {
        Statement {
            offset: self.offset,
            kind: Kind::Skip { past },
        }
    }
}

#[derive(Clone, Copy)]
pub enum Block {
    Do,
    Yes(Fork),
    No(Detour),
}
