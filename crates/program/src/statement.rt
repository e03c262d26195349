// Statements: a program as reading gives it, in a row in the order of the source, with forward jumps.
use crate::action::{Action, Test};
use crate::field::TableNo;

// An if's yes block is what follows it; `past` statements further begins its no block. At the end of a yes block a skip passes over the no block.
// Jumps count from the statement that follows, and one past the last statement is the end.
#[derive(Clone, Copy, Debug, PartialEq, Eq)]
pub enum Kind {
    Act(Action),
    Apply(TableNo),
    If { test: Test, past: u32 },
    Skip { past: u32 },
}

// A statement, and the offset of its keyword in the source.
#[derive(Clone, Copy, Debug, PartialEq, Eq)]
pub struct Statement {
    pub offset: u32,
    pub kind: Kind,
}
