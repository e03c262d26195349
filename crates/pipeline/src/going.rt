// What one node does to a packet.
ghost use Rattle.std.specs.Prelude.{◌≡◌};
ghost use Rattle.model.specs.Packet.{Packet};
ghost use Rattle.model.specs.Stage.{moved, works_on};
ghost use Rattle.program.specs.Stands.{over, does_of, node_of};
ghost use Rattle.pipeline.specs.Stands.{version_at, transit};

use crate::versions::Version;
use program::acting::{act, passes};
use program::field::Fields;
use program::node::{Does, Node};
use table::lookup::apply;

// Whether a stage works on a node: it stands on this stage, and is no halt.
pub(crate) fn works_on(node: Node, stage: u16) -> bool
    ensures { result ≡ works_on stage (node_of node) }
{
    match node.does {
        Does::Halt => false,
        Does::Act { .. } | Does::Look { .. } | Does::Ask { .. } => node.stage == stage,
    }
}

impl Version<'_> {
    // What a node does to a packet that is at it, and the index of the node at which the packet goes on. A table looks at the fields of `seen`.
    pub(crate) fn go(self, does: Does, at: u16, fields: &mut Fields, seen: &Fields) -> u16
        ensures { (base : Packet) → transit (over fields.new base) result ≡ moved (version_at self.entry) (over seen.now base) (does_of does) (transit (over fields.old base) at) }
    {
        let declarations = &self.loaded.declarations;
        match does {
            Does::Halt => at,
            Does::Act { action, next } => {
                act(fields, declarations, action);
                next
            }
            Does::Look { table, next } => {
                apply(fields, seen, declarations, self.tables, table, self.newest);
                next
            }
            Does::Ask {
                test,
                passed,
                failed,
            } => { if passes(fields, test) { passed } else { failed } }
        }
    }
}
