// Where a path goes on, and branches whose no path is yet to be laid.
ghost use Rattle.std.specs.Prelude.{◌≡◌, ◌+◌, ◌<◌, ◌≤◌};
ghost use Rattle.model.specs.Node as nodes;
ghost use Rattle.program.specs.Stands.{test_of, node_of};
ghost use Rattle.placement.specs.Points.{behind_change, behind_branch};

use program::action::Test;
use program::node::{Does, Node};

// At which statement a path goes on, the stage of the node before on it, and whether something was changed on that stage.
#[derive(Clone, Copy)]
pub(crate) struct Point {
    pub at: usize,
    pub stage: u16,
    pub changed: bool,
}

impl Point {
    // Where a path goes on behind an action or a table on a stage.
    pub(crate) fn behind_change(at: usize, stage: u16) -> Point
        ensures { result ≡ behind_change at stage }
    {
        let changed = true;
        Point { at, stage, changed }
    }

    // Where a path of a branch on a stage goes on: what was changed before shows there if that is still the same stage.
    pub(crate) fn behind_branch(self, at: usize, stage: u16) -> Point
        ensures { result ≡ behind_branch self at stage }
    {
        let changed = self.changed && stage == self.stage;
        Point { at, stage, changed }
    }
}

// A branch whose yes path is being laid: its index in the row, its test, and where its no path goes on.
#[derive(Clone, Copy)]
pub(crate) struct Branch {
    pub node: usize,
    pub test: Test,
    pub no: Point,
}

impl Branch {
    // The branch's node once it is known where its no path begins.
    pub(crate) fn resolved(self, no_node: usize) -> Node
        requires { (self.node < no_node) × (no_node ≤ 512) }
        ensures { node_of result ≡ nodes.node self.no.stage (nodes.Ask (test_of self.test) (self.node + 1) no_node) }
    {
        Node {
            stage: self.no.stage,
            does: Does::Ask {
                test: self.test,
                passed: (self.node + 1) as u16,
                failed: no_node as u16,
            },
        }
    }
}
