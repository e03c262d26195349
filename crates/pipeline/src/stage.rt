// One packet on one stage.
ghost use Rattle.std.specs.Prelude.{◌≡◌, length};
ghost use Rattle.model.specs.Packet.{Packet};
ghost use Rattle.model.specs.Stage.{on_stage};
ghost use Rattle.program.specs.Stands.{over};
ghost use Rattle.pipeline.specs.Stands.{version_at, transit};

use crate::going::works_on;
use crate::versions::Version;
use program::field::Fields;

impl Version<'_> {
    // The nodes of a stage are done for a packet, one after the other, from the node at which it is; a table looks at the fields as they came to the stage.
    // Gives the index of the node at which the packet is then.
    pub fn on_stage(self, fields: &mut Fields, at: u16, stage: u16) -> u16
        ensures { (base : Packet) → transit (over fields.new base) result ≡ on_stage (length self.entry.loaded.now.nodes.items) (version_at self.entry) stage (over fields.old base) (transit (over fields.old base) at) }
    {
        if !works_on(self.loaded.node_at(at), stage) {
            return at;
        }
        self.turns(fields, at, stage)
    }

    // The same, with the fields as they came kept aside.
    fn turns(self, fields: &mut Fields, at: u16, stage: u16) -> u16
        ensures { (base : Packet) → transit (over fields.new base) result ≡ on_stage (length self.entry.loaded.now.nodes.items) (version_at self.entry) stage (over fields.old base) (transit (over fields.old base) at) }
    {
        let seen = *fields;
        let mut at = at;
        for _turn in 0..self.loaded.nodes.len() {
            let node = self.loaded.node_at(at);
            if !works_on(node, stage) {
                return at;
            }
            at = self.go(node.does, at, fields, &seen);
        }
        at
    }
}
