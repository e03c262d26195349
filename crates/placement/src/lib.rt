// Placement: from the statements of a program to its row of nodes, each on a stage of the pipeline.
#![tactic(auto)]

ghost use Rattle.std.specs.Prelude.{◌≡◌, MatchResult};
ghost use Rattle.model.specs.Statements.{program_of};
ghost use Rattle.model.specs.Stopping.{Placed, placement as placement_of, verdict};
ghost use Rattle.program.specs.Stands.{statements_of, nodes_of};
ghost use Rattle.placement.specs.declared.Fault.TheVariants.{NoMemory};
ghost use Rattle.placement.specs.Faults.{Refuses};
ghost use Rattle.placement.specs.Offsets.{lowest_of};

use crate::branch::{Branch, Point};
use crate::row::append;
use crate::step::{StepKind, step_at};
use program::node::Node;
use program::statement::Statement;
use std::alloc::{AllocFailed, Global};

mod branch;
mod offsets;
mod room;
mod row;
mod step;

// Why a program is not placed: a node finds no stage or is one too many, and the smallest offset of such a node; or memory is wanting.
#[derive(Clone, Copy, Debug, PartialEq, Eq)]
pub enum Fault {
    NoRoom(u32),
    NoMemory,
}

// So that `v.push(x)?` goes on to a fault.
impl<T: Drop> From<AllocFailed<T>> for Fault {
    ghost from_gives = { λ _ f. f ≡ NoMemory };

    fn from(_refused: AllocFailed<T>) -> Fault {
        Fault::NoMemory
    }
}

// The row of a program's nodes, on 12 stages and at most 512 of them, halts counted. `end` is the offset at which the program ends.
// A path is laid to its end, and the no paths of its branches wait meanwhile, the last to come first. It stops at one node too many, so that work and memory are bounded however many paths there are.
pub fn place(heap: Global, statements: &[Statement], end: u32) -> Result<Vec<Node>, Fault>
    ensures { MatchResult result
        (λ row. placement_of 12 512 (program_of end (statements_of statements.now)) ≡ Placed (nodes_of row.items))
        (λ fault. Refuses fault (placement_of 12 512 (program_of end (statements_of statements.now)))) }
{
    let mut row = Vec::new(heap);
    let mut pending: Vec<Branch> = Vec::new(heap);
    let mut noted = None;
    let mut point = Point {
        at: 0,
        stage: 0,
        changed: false,
    };
    loop {
        let step = step_at(statements, point.at, end);
        let stage = append(&mut row, &mut noted, step, point)?;
        match step.kind {
            StepKind::End => {
                let Some(branch) = pending.pop() else {
                    return settled(row, noted);
                };
                let no_node = row.len();
                row[branch.node] = branch.resolved(no_node);
                point = branch.no;
            }
            StepKind::Act { next, .. } => point = Point::behind_change(next, stage),
            StepKind::Apply { next, .. } => point = Point::behind_change(next, stage),
            StepKind::If { test, yes, no } => {
                let node = row.len() - 1;
                let no = point.behind_branch(no, stage);
                pending.push(Branch { node, test, no })?;
                point = point.behind_branch(yes, stage);
            }
        }
    }
}

// What comes of a whole row: it stands if no offset was noted.
fn settled(row: Vec<Node>, noted: Option<u32>) -> Result<Vec<Node>, Fault>
    ensures { MatchResult result
        (λ placed. verdict (nodes_of row.items) (lowest_of noted) ≡ Placed (nodes_of placed.items))
        (λ fault. Refuses fault (verdict (nodes_of row.items) (lowest_of noted))) }
{
    match noted {
        None => Ok(row),
        Some(offset) => Err(Fault::NoRoom(offset)),
    }
}
