// A program as it is loaded into the pipeline.
ghost use Rattle.std.specs.Prelude.{◌≡◌};
ghost use Rattle.model.specs.Node.{node_at};
ghost use Rattle.program.specs.Stands.{node_of, nodes_of};

use program::declarations::Declarations;
use program::node::{Does, Node};

// What it declares, and its row of nodes.
#[derive(Drop)]
pub struct Loaded {
    pub declarations: Declarations,
    pub nodes: Vec<Node>,
}

impl Loaded {
    // The node at an index; behind the row there are only halts.
    pub(crate) fn node_at(&self, at: u16) -> Node
        ensures { node_of result ≡ node_at (nodes_of self.now.nodes.items) at }
    {
        match self.nodes.get(at as usize) {
            Some(node) => *node,
            None => Node {
                stage: 0,
                does: Does::Halt,
            },
        }
    }
}
