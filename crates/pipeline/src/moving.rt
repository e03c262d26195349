// All slots in one step: every stage works, and every packet moves on by one.
ghost use Rattle.std.specs.Prelude.{◌≡◌, true, [], ◌∷◌, ◌++◌, length};
ghost use Rattle.std.specs.List.{list_any};
ghost use Rattle.model.specs.Pipeline.{one_bit, older_slot, worked};
ghost use Rattle.pipeline.specs.Apart.{distinct};
ghost use Rattle.pipeline.specs.Slots.{place_of, places_of};
ghost use Rattle.pipeline.specs.Stands.{versions_of, stored_in, slot_of, slots_of};

use crate::slot::{Slot, Slots};
use crate::store::Store;
use crate::versions::Versions;

impl Slots {
    // Each slot is worked on and moves on by one, what comes stands in slot 0, and the last is given out. No two share a place of the store.
    pub(crate) fn advance(
        mut self,
        incoming: Slot,
        store: &mut Store,
        versions: &Versions,
    ) -> (Slots, Slot)
        requires { distinct (place_of incoming ∷ places_of self.row) ≡ true }
        ensures twelve { length self.row ≡ 12 }
        ensures places { places_of result.0.row ++ (place_of result.1 ∷ []) ≡ place_of incoming ∷ places_of self.row }
        ensures slots { slots_of (stored_in store.new) result.0.row ++ (slot_of (stored_in store.new) result.1 ∷ []) ≡ slot_of (stored_in store.old) incoming ∷ worked (versions_of versions.now) 0 (slots_of (stored_in store.old) self.row) }
    {
        let mut carry = incoming;
        // a stage is a number here, and behind `iter_mut().enumerate()` nothing is known of what was written
        for stage in 0..12u16 {
            let here = self.row[stage as usize];
            self.row[stage as usize] = carry;
            carry = store.work(here, stage, versions);
        }
        (self, carry)
    }

    // Whether a packet in a slot has a version before the newest.
    pub(crate) fn any_older(&self, store: &Store, newest: bool) -> bool
        ensures { result ≡ list_any (λ x. older_slot one_bit newest (slot_of (stored_in store.now) x)) self.now.row }
    {
        self.row.iter().any(|slot| store.is_older(*slot, newest))
    }
}
