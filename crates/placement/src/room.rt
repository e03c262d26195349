// Room on the stages: how much one holds, and the first that has room for one node more.
ghost use Rattle.std.specs.Prelude.{◌≡◌, ◌^◌, ◌<◌, ◌≤◌, max, not, ◌&&◌, ◌==◌, count_by};
ghost use Rattle.model.specs.Node.{halts, looks};
ghost use Rattle.model.specs.Placement.{has_room, limited, beyond};
ghost use Rattle.program.specs.Stands.{does_of, nodes_of};

use program::node::{Does, Node};

// The most nodes, and the most tables, on one stage.
const MOST_NODES: usize = 64;

const MOST_TABLES: usize = 4;

// The first stage from `from` on that has room for one node more, a table or another: a flag, as the rule has it, and no kind of node decides more.
pub(crate) fn first_with_room(row: &[Node], table: bool, from: u16) -> u16
    requires { beyond (nodes_of row.now) < 2 ^ 16 }
    ensures first { result ≡ limited table (nodes_of row.now) from }
    ensures low { result ≤ max from (beyond (nodes_of row.now)) }
{
    let mut stage = from;
    // By hand: a search in a range would answer an Option, and there is always a stage with room.
    while !has_room(row, table, stage) {
        stage += 1;
    }
    stage
}

// Whether a stage has room for one node more.
fn has_room(row: &[Node], table: bool, stage: u16) -> bool
    ensures { result ≡ has_room table (nodes_of row.now) stage }
{
    nodes_on(row, stage) < MOST_NODES && (!table || tables_on(row, stage) < MOST_TABLES)
}

// Nodes on a stage, halts not counted.
fn nodes_on(row: &[Node], stage: u16) -> usize
    ensures { result ≡ count_by (λ n. n.stage == stage && not (halts (does_of n.does))) row.now }
{
    row.iter().filter(|node| is_on(**node, stage)).count()
}

// Tables on a stage: another test than for nodes, and nothing else.
fn tables_on(row: &[Node], stage: u16) -> usize
    ensures { result ≡ count_by (λ n. n.stage == stage && looks (does_of n.does)) row.now }
{
    row.iter().filter(|node| is_table_on(**node, stage)).count()
}

// Whether a node takes room on a stage.
fn is_on(node: Node, stage: u16) -> bool
    ensures { result ≡ (node.stage == stage && not (halts (does_of node.does))) }
{
    match node.does {
        Does::Halt => false,
        _ => node.stage == stage,
    }
}

// Whether a node is a table on a stage.
fn is_table_on(node: Node, stage: u16) -> bool
    ensures { result ≡ (node.stage == stage && looks (does_of node.does)) }
{
    match node.does {
        Does::Look { .. } => node.stage == stage,
        _ => false,
    }
}
