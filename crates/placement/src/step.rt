// A program seen from one of its statements on, with skips followed.
ghost use Rattle.std.specs.Prelude.{◌≡◌};
ghost use Rattle.model.specs.Statements.{paths_at};
ghost use Rattle.program.specs.Stands.{statements_of};
ghost use Rattle.placement.specs.Steps.{paths_of_step};

use program::action::{Action, Test};
use program::field::TableNo;
use program::jumping::landing;
use program::statement::{Kind, Statement};

// What stands there: the end; an action or a table, and the index at which the path goes on; or an if, and the indices at which its two paths go on.
#[derive(Clone, Copy)]
pub(crate) enum StepKind {
    End,
    Act { action: Action, next: usize },
    Apply { table: TableNo, next: usize },
    If { test: Test, yes: usize, no: usize },
}

// A step of a path, and the offset that a refusal of its node points to.
#[derive(Clone, Copy)]
pub(crate) struct Step {
    pub offset: u32,
    pub kind: StepKind,
}

// The step that the statement at an index comes to; past the last statement that is the end.
pub(crate) fn step_at(statements: &[Statement], from: usize, end: u32) -> Step
    ensures { paths_at end (statements_of statements.now) from ≡ paths_of_step end (statements_of statements.now) result }
{
    let mut at = from;
    // By index: a skip passes over statements.
    while at < statements.len() {
        let statement = statements[at];
        let offset = statement.offset;
        let next = at + 1;
        match statement.kind {
            Kind::Skip { past } => at = landing(statements.len(), at, past),
            Kind::Act(action) => {
                let kind = StepKind::Act { action, next };
                return Step { offset, kind };
            }
            Kind::Apply(table) => {
                let kind = StepKind::Apply { table, next };
                return Step { offset, kind };
            }
            Kind::If { test, past } => {
                let yes = next;
                let no = landing(statements.len(), at, past);
                let kind = StepKind::If { test, yes, no };
                return Step { offset, kind };
            }
        }
    }
    Step {
        offset: end,
        kind: StepKind::End,
    }
}
