// The smallest offset of a node that is out of place.
ghost use Rattle.std.specs.Prelude.{◌≡◌};
ghost use Rattle.model.specs.Node.{in_place};
ghost use Rattle.model.specs.Stopping.{offset_of, noted as noted_in};
ghost use Rattle.program.specs.Stands.{node_of};
ghost use Rattle.placement.specs.Offsets.{lowest_of};

use program::node::{Does, Node};

// The stages of the pipeline.
const STAGES: u16 = 12;

// An offset, or the one noted before if that is smaller.
pub(crate) fn smallest(noted: Option<u32>, offset: u32) -> u32
    ensures { result ≡ offset_of (lowest_of noted) offset }
{
    match noted {
        None => offset,
        Some(before) => offset.min(before),
    }
}

// What is noted with one node more, given its offset.
pub(crate) fn noted_with(noted: Option<u32>, node: Node, offset: u32) -> Option<u32>
    ensures { lowest_of result ≡ noted_in 12 (lowest_of noted) (node_of node) offset }
{
    if is_in_place(node) {
        noted
    } else {
        Some(smallest(noted, offset))
    }
}

// Whether a node stands on a stage of the pipeline, or needs none.
fn is_in_place(node: Node) -> bool
    ensures { result ≡ in_place 12 (node_of node) }
{
    match node.does {
        Does::Halt => true,
        _ => node.stage < STAGES,
    }
}
