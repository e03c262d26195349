// The store, and what is done to a slot's packet at its place.
ghost use Rattle.std.specs.Prelude.{◌≡◌, ℕ, ◌≢◌};
ghost use Rattle.model.specs.Pipeline.{one_bit, arriving, older_slot, worked_slot};
ghost use Rattle.model.specs.Pipeline.{Comes};
ghost use Rattle.pipeline.specs.Slots.{place_of};
ghost use Rattle.pipeline.specs.Stands.{view_of, incoming_of, versions_of, stored_in, slot_of};

use crate::admitting::admit;
use crate::packet::{Incoming, Packet, Payload, Stored};
use crate::slot::{Place, Slot};
use crate::store::Store;
use crate::versions::Versions;
use program::field::Fields;
use std::alloc::{AllocError, Global};

impl Store {
    // A store, whatever it holds.
    pub(crate) fn new(heap: Global) -> Result<Store, AllocError> {
        let fields = Fields { of: [0; 64] };
        let payload = Payload {
            present: 0,
            length: 0,
            bytes: [0; 2048],
        };
        let mut all = Vec::with_capacity(heap, 13)?;
        for _place in 0..13usize {
            all.push(Stored {
                packet: Packet { fields, payload },
                version: false,
            })?;
        }
        Ok(Store { all })
    }

    // What stands at a place.
    pub(crate) fn at(&self, place: Place) -> &Stored
        ensures { view_of result.now ≡ stored_in self.now place.at }
    {
        &self.all[place.at as usize]
    }

    // What comes is put at a place, and stands at the first node.
    pub(crate) fn admit(&mut self, place: Place, incoming: Incoming<'_>, version: bool) -> Slot
        ensures place { place_of result ≡ place.at }
        ensures slot { slot_of (stored_in self.new) result ≡ arriving version (Comes (incoming_of incoming.entry)) }
        ensures elsewhere { (j : ℕ) → (j ≢ place.at) → stored_in self.new j ≡ stored_in self.old j }
    {
        admit(&mut self.all[place.at as usize], incoming, version);
        Slot {
            place,
            node: Some(0),
        }
    }

    // Whether the packet of a slot has a version before the newest.
    pub(crate) fn is_older(&self, slot: Slot, newest: bool) -> bool
        ensures { result ≡ older_slot one_bit newest (slot_of (stored_in self.now) slot) }
    {
        slot.node.is_some() && self.at(slot.place).version != newest
    }

    // The nodes of the stage are done for the slot's packet, which goes by its own version, at its place in the store; all other places stay.
    // A packet keeps its slot until it has passed all stages, also when nothing is left to do for it.
    pub(crate) fn work(&mut self, slot: Slot, stage: u16, versions: &Versions) -> Slot
        ensures place { place_of result ≡ place_of slot }
        ensures works { slot_of (stored_in self.new) result ≡ worked_slot (versions_of versions.now) stage (slot_of (stored_in self.old) slot) }
        ensures elsewhere { (j : ℕ) → (j ≢ place_of slot) → stored_in self.new j ≡ stored_in self.old j }
    {
        let Some(at) = slot.node else {
            return slot;
        };
        let stored = &mut self.all[slot.place.at as usize];
        let version = versions.of(stored.version);
        let next = version.on_stage(&mut stored.packet.fields, at, stage);
        Slot {
            place: slot.place,
            node: Some(next),
        }
    }
}
