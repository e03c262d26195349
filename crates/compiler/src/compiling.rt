// Compiling a source.
ghost use Rattle.std.specs.Prelude.{◌≡◌, MatchResult};
ghost use Rattle.program.specs.Stands.{nodes_of};
ghost use Rattle.source.specs.State as state;
ghost use Rattle.source.specs.Reading.{taken, read_source};
ghost use Rattle.compiler.specs.Compiling.{Accepted, compiled, placed as placed_in};
ghost use Rattle.compiler.specs.Packaging.{packaged as packaged_in};
ghost use Rattle.compiler.specs.Program.{paths_of};
ghost use Rattle.compiler.specs.Refusals.{Refuses, Unreadable};
ghost use Rattle.compiler.specs.Stands.{program_of};
ghost use Rattle.model.specs.Stopping.{placement as placement_of};

use crate::compiled::Program;
use crate::limited::Limited;
use crate::packaging::packaged;
use crate::refusal::Refusal;
use placement::{Fault as Misplaced, place};
use program::node::Node;
use source::fault::Fault;
use source::reading::read as see;
use std::alloc::Global;

// A program and its row of nodes.
#[derive(Drop)]
pub struct Compiled {
    pub program: Program,
    pub nodes: Vec<Node>,
}

// The program that a source gives, or its first fault.
fn read(heap: Global, source: &[u8]) -> Result<Program, Refusal>
    ensures { MatchResult result
        (λ p. ((d : state.Seen) × (read_source source.now ≡ taken d) × (program_of p ≡ packaged_in d)))
        (λ f. Unreadable f (read_source source.now)) }
{
    // By cases: an impl From for each of the two kinds of fault would be used once, and needs a definition and a lemma by the same cases.
    match see(heap, source) {
        Ok(seen) => packaged(heap, Limited { seen }),
        Err(Fault::Memory) => Err(Refusal::Memory),
        Err(fault) => Err(Refusal::Unread(fault)),
    }
}

// The nodes of a program, each on its stage.
fn placed(heap: Global, program: &Program) -> Result<Vec<Node>, Refusal>
    ensures { MatchResult result
        (λ nodes. placed_in (program_of program.now) (placement_of 12 512 (paths_of (program_of program.now))) ≡ Accepted (program_of program.now) (nodes_of nodes.items))
        (λ f. Refuses f (placed_in (program_of program.now) (placement_of 12 512 (paths_of (program_of program.now))))) }
{
    match place(heap, &program.statements, program.end) {
        Ok(nodes) => Ok(nodes),
        Err(Misplaced::NoRoom(offset)) => Err(Refusal::Unplaced(offset)),
        Err(Misplaced::NoMemory) => Err(Refusal::Memory),
    }
}

// A source is read whole and then placed on twelve stages, or it is refused with its first fault.
pub fn compile(heap: Global, source: &[u8]) -> Result<Compiled, Refusal>
    ensures { MatchResult result
        (λ c. compiled source.now ≡ Accepted (program_of c.program) (nodes_of c.nodes.items))
        (λ f. Refuses f (compiled source.now)) }
{
    let program = read(heap, source)?;
    let nodes = placed(heap, &program)?;
    Ok(Compiled { program, nodes })
}
