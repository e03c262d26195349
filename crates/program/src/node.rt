// Nodes: a program laid out in a row, each node on a stage of the pipeline.
use crate::action::{Action, Test};
use crate::field::TableNo;

// What a node does, and the index of the node at which the packet goes on: behind an action or a table, and where a test passes, and where it doesn't.
#[derive(Clone, Copy, Debug, PartialEq, Eq)]
pub enum Does {
    Halt,
    Act {
        action: Action,
        next: u16,
    },
    Look {
        table: TableNo,
        next: u16,
    },
    Ask {
        test: Test,
        passed: u16,
        failed: u16,
    },
}

#[derive(Clone, Copy, Debug, PartialEq, Eq)]
pub struct Node {
    pub stage: u16,
    pub does: Does,
}
