// Steps of the pipeline, and updates between them.
ghost use Rattle.std.specs.Prelude.{◌≡◌, [], MatchOption};
ghost use Rattle.model.specs.Packet.{departs};
ghost use Rattle.model.specs.Pipeline.{one_bit, advance as advanced, leaves, takes, event};
ghost use Rattle.model.specs.Pipeline.{Idle, Comes, Update};
ghost use Rattle.model.specs.Answer.{answered};
ghost use Rattle.table.specs.Stands.{edits_of};
ghost use Rattle.pipeline.specs.Slots.{place_of};
ghost use Rattle.pipeline.specs.Stands.{packet_of, incoming_of, stored_in, slot_of};
ghost use Rattle.pipeline.specs.Pipeline.{pipeline_of, loaded_of, shifted, departed_of, answer_of, spare_of};

use crate::answer::OldPacketUnderWay;
use crate::loaded::Loaded;
use crate::packet::{Incoming, Packet};
use crate::pipeline::Pipeline;
use crate::slot::Slot;
use table::entry::Edit;

impl Pipeline {
    // A step that brings a packet: all stages work, the packet of slot 11 leaves, all others move on by one, and the packet that comes stands in slot 0 at the first node, with the newest version.
    // Nothing is allocated.
    pub fn step(&mut self, incoming: Incoming<'_>)
        ensures does { pipeline_of self.new ≡ advanced (Comes (incoming_of incoming.entry)) (pipeline_of self.old) }
        ensures leaves { departed_of self.new ≡ leaves (pipeline_of self.old) }
        ensures program { loaded_of self.new ≡ loaded_of self.old }
    {
        let slot = self
            .store
            .admit(self.spare.place, incoming, self.versions.newest);
        self.advance(slot);
    }

    // A step that brings nothing.
    pub fn idle(&mut self)
        ensures does { pipeline_of self.new ≡ advanced Idle (pipeline_of self.old) }
        ensures leaves { departed_of self.new ≡ leaves (pipeline_of self.old) }
        ensures program { loaded_of self.new ≡ loaded_of self.old }
    {
        self.advance(Slot {
            place: self.spare.place,
            node: None,
        });
    }

    // All slots are worked on and move on by one; what comes stands at the spare place.
    fn advance(&mut self, incoming: Slot)
        requires { place_of incoming ≡ place_of self.old.spare }
        ensures does { pipeline_of self.new ≡ shifted (slot_of (stored_in self.old.store) incoming) (pipeline_of self.old) }
        ensures leaves { departed_of self.new ≡ leaves (pipeline_of self.old) }
        ensures program { loaded_of self.new ≡ loaded_of self.old }
    {
        let (slots, last) = self
            .slots
            .advance(incoming, &mut self.store, &self.versions);
        self.slots = slots;
        self.spare = last;
    }

    // The program that runs.
    pub fn loaded(&self) -> &Loaded
        ensures { result.now ≡ loaded_of self.now }
    {
        &self.versions.loaded
    }

    // The packet that left in the last step, if one did.
    pub fn left(&self) -> Option<&Packet>
        ensures { MatchOption result (departed_of self.now ≡ []) (λ packet. departed_of self.now ≡ departs (packet_of packet.now)) }
    {
        self.spare.node?;
        Some(self.last())
    }

    // The packet at the spare place, which is the one that left in the last step if one did.
    pub fn last(&self) -> &Packet
        ensures { packet_of result.now ≡ spare_of self.now }
    {
        &self.store.at(self.spare.place).packet
    }

    // An update is taken, as a new version for the packets that come later, unless a packet of a version before the newest is in a slot.
    // It costs what it carries, and allocates nothing.
    pub fn update(&mut self, edits: Vec<Edit>) -> Result<(), OldPacketUnderWay>
        ensures does { pipeline_of self.new ≡ event one_bit (Update (edits_of edits.items)) (pipeline_of self.old) }
        ensures answers { answer_of result ≡ answered (takes one_bit (pipeline_of self.old)) }
        ensures program { loaded_of self.new ≡ loaded_of self.old }
    {
        if !self.takes() {
            return Err(OldPacketUnderWay);
        }
        self.versions.update(edits);
        Ok(())
    }

    // Whether an update is taken: no packet in a slot has a version before the newest.
    fn takes(&self) -> bool
        ensures { result ≡ takes one_bit (pipeline_of self.now) }
    {
        !self.slots.any_older(&self.store, self.versions.newest)
    }
}
