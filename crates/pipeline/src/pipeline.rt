// The pipeline as a value.
ghost use Rattle.std.specs.Prelude.{◌≡◌, true, ◌∷◌};
ghost use Rattle.pipeline.specs.Apart.{distinct};
ghost use Rattle.pipeline.specs.Slots.{place_of, places_of};

use crate::slot::{Slot, Slots};
use crate::store::Store;
use crate::versions::Versions;

// A program and its tables in two versions, twelve slots, and a store with one place more. The spare place serves the packet that comes next;
// until then it has the packet that has left in the last step, if one did. No two slots share a place, and none has the spare one.
#[derive(Drop)]
pub struct Pipeline {
    pub(crate) versions: Versions,
    pub(crate) slots: Slots,
    pub(crate) spare: Slot,
    pub(crate) store: Store,
    ghost apart: { distinct (place_of spare ∷ places_of slots.row) ≡ true },
}
