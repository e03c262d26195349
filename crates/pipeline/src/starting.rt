// A pipeline at its start.
ghost use Rattle.std.specs.Prelude.{◌≡◌, ℕ, Bool, true, List, ◌∷◌, ◌<◌, IfOk};
ghost use Rattle.model.specs.Pipeline.{one_bit, start, free};
ghost use Rattle.pipeline.specs.Apart.{distinct};
ghost use Rattle.pipeline.specs.Slots.{places_of};
ghost use Rattle.pipeline.specs.Stands.{View, empty_version, slots_of};
ghost use Rattle.pipeline.specs.Pipeline.{pipeline_of, loaded_of};

use crate::loaded::Loaded;
use crate::pipeline::Pipeline;
use crate::slot::{Place, Slot, Slots};
use crate::store::Store;
use crate::versions::Versions;
use std::alloc::{AllocError, Global};
use std::array;
use table::store::Tables;

impl Pipeline {
    // A pipeline with a program, all slots free and all tables empty.
    pub fn new(heap: Global, loaded: Loaded) -> Result<Pipeline, AllocError>
        ensures starts { IfOk result (λ p. pipeline_of p ≡ start one_bit 12 (empty_version loaded)) }
        ensures program { IfOk result (λ p. loaded_of p ≡ loaded) }
    {
        let tables = Tables::new(heap)?;
        let store = Store::new(heap)?;
        let slots = free_slots();
        let spare = Slot {
            place: Place { at: 12 },
            node: None,
        };
        Ok(Pipeline {
            versions: Versions {
                loaded,
                tables,
                newest: false,
            },
            slots,
            spare,
            store,
        })
    }
}

// Slot i has place i of the store; place 12 is spare.
fn free_slots() -> Slots
    ensures apart { distinct (12 ∷ places_of result.row) ≡ true }
    ensures free { (s : ℕ → View) → slots_of s result.row ≡ free 12 }
{
    Slots {
        row: array::from_fn(
            |at|
                requires { at < 12 }
            {
                Slot {
                    place: Place { at: at as u8 },
                    node: None,
                }
            },
        ),
    }
}
