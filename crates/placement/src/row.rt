// One node more in the row.
ghost use Rattle.std.specs.Prelude.{◌≡◌, ◌+◌, ◌<◌, ◌≤◌, [], ◌∷◌, ◌++◌, length, vec_len, MatchResult};
ghost use Rattle.model.specs.Placement.{table_from};
ghost use Rattle.program.specs.Stands.{node_of};
ghost use Rattle.placement.specs.Faults.{TooMany};
ghost use Rattle.placement.specs.Offsets.{lowest_of};
ghost use Rattle.placement.specs.Rows.{Appended, Low, node_for};

use crate::Fault;
use crate::branch::Point;
use crate::offsets::{noted_with, smallest};
use crate::room::first_with_room;
use crate::step::{Step, StepKind};
use program::node::{Does, Node};

// The most nodes in a row.
const MOST: usize = 512;

// Appends the node of a step, notes its offset if it is out of place, and answers its stage.
pub(crate) fn append(
    row: &mut Vec<Node>,
    noted: &mut Option<u32>,
    step: Step,
    point: Point,
) -> Result<u16, Fault>
    requires short { vec_len row.old ≤ 512 }
    requires stage { point.stage ≤ vec_len row.old }
    requires low { Low row.old.items }
    ensures { MatchResult result
        (λ stage. Appended row.old.items (lowest_of noted.old) step point stage row.new.items (lowest_of noted.new))
        (λ fault. TooMany fault (vec_len row.old) (lowest_of noted.old) step.offset) }
{
    let node = node_for(step.kind, row, point);
    push_within(row, node, *noted, step.offset)?;
    *noted = noted_with(*noted, node, step.offset);
    Ok(node.stage)
}

// Pushes a node if it is not one too many: every node counts, a halt too.
fn push_within(
    row: &mut Vec<Node>,
    node: Node,
    noted: Option<u32>,
    offset: u32,
) -> Result<(), Fault>
    ensures { MatchResult result
        (λ _. (vec_len row.old < 512) × (row.new.items ≡ row.old.items ++ (node ∷ [])))
        (λ fault. TooMany fault (vec_len row.old) (lowest_of noted) offset) }
{
    if row.len() >= MOST {
        return Err(Fault::NoRoom(smallest(noted, offset)));
    }
    row.push(node)?;
    Ok(())
}

// The node of a step behind the row so far, on the first stage with room. Where the no path of a branch begins is not known yet.
fn node_for(kind: StepKind, row: &[Node], point: Point) -> Node
    requires short { length row.now ≤ 512 }
    requires stage { point.stage ≤ length row.now }
    requires low { Low row.now }
    ensures node { node_of result ≡ node_for row.now point.stage point.changed kind }
    ensures low { result.stage ≤ length row.now + 1 }
{
    let next = (row.len() + 1) as u16;
    match kind {
        StepKind::End => Node {
            stage: 0,
            does: Does::Halt,
        },
        StepKind::Act { action, .. } => Node {
            stage: first_with_room(row, false, point.stage),
            does: Does::Act { action, next },
        },
        StepKind::Apply { table, .. } => {
            let stage = first_with_room(row, true, table_from(point));
            Node {
                stage,
                does: Does::Look { table, next },
            }
        }
        StepKind::If { test, .. } => Node {
            stage: first_with_room(row, false, point.stage),
            does: Does::Ask {
                test,
                passed: next,
                failed: 0,
            },
        },
    }
}

// The lowest stage for a table.
fn table_from(point: Point) -> u16
    requires { point.stage ≤ 512 }
    ensures { result ≡ table_from point.stage point.changed }
{
    if point.changed {
        point.stage + 1
    } else {
        point.stage
    }
}
