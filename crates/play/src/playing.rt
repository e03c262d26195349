// A run of a program over a row of events.
ghost use Rattle.std.specs.Prelude.{◌≡◌, [], MatchResult};
ghost use Rattle.model.specs.Statements.{program_of};
ghost use Rattle.model.specs.Stopping.{placement as placement_of};
ghost use Rattle.program.specs.Stands.{declarations_of, statements_of};
ghost use Rattle.placement.specs.Faults.{Refuses};
ghost use Rattle.play.specs.Promised.{promised};
ghost use Rattle.play.specs.Stands.{events_of, outcomes_of};

use crate::event::{Event, Outcome};
use crate::happening::happen;
use pipeline::loaded::Loaded;
use pipeline::pipeline::Pipeline;
use placement::{Fault, place};
use program::declarations::Declarations;
use program::statement::Statement;
use std::alloc::Global;

// A program is placed on twelve stages and run, and each event has its outcome, in order. Every packet leaves after exactly twelve steps, as the program, done from top to bottom, means it
// with the tables as they stood when it came; an update is refused exactly while a packet of a version before the newest is under way. A program that cannot be placed is refused.
pub fn play(
    heap: Global,
    declarations: Declarations,
    statements: &[Statement],
    end: u32,
    events: Vec<Event>,
) -> Result<Vec<Outcome>, Fault>
    ensures { MatchResult result
        (λ outcomes. outcomes_of outcomes.items ≡ promised (declarations_of declarations) (program_of end (statements_of statements.now)) [] (events_of events.items))
        (λ fault. Refuses fault (placement_of 12 512 (program_of end (statements_of statements.now)))) }
{
    let nodes = place(heap, statements, end)?;
    let Ok(mut pipeline) = Pipeline::new(
        heap,
        Loaded {
            declarations,
            nodes,
        },
    ) else {
        return Err(Fault::NoMemory);
    };
    let mut outcomes = Vec::new(heap);
    for event in events {
        outcomes.push(happen(&mut pipeline, event))?;
    }
    Ok(outcomes)
}
