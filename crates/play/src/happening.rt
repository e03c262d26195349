// One event.
ghost use Rattle.std.specs.Prelude.{◌≡◌, ℕ};
ghost use Rattle.model.specs.Pipeline.{one_bit, event as event_in};
ghost use Rattle.pipeline.specs.Pipeline.{pipeline_of, departed_of};
ghost use Rattle.play.specs.Stands.{event_of, outcome_of};
ghost use Rattle.play.specs.Promised.{Sends, outcome_in};

use crate::event::{Event, Outcome};
use pipeline::packet::Incoming;
use pipeline::pipeline::Pipeline;
use program::field::Fields;

// An event happens to the pipeline.
pub(crate) fn happen(pipeline: &mut Pipeline, event: Event) -> Outcome
    ensures does { pipeline_of pipeline.new ≡ event_in one_bit (event_of event) (pipeline_of pipeline.old) }
    ensures outcome { outcome_of result ≡ outcome_in (event_of event) (pipeline_of pipeline.old) }
{
    match event {
        Event::Idle => {
            pipeline.idle();
            sent(pipeline)
        }
        Event::Comes(fields) => {
            pipeline.step(Incoming {
                fields: &fields,
                present: 0,
                payload: &[],
            });
            sent(pipeline)
        }
        Event::Update(edits) => Outcome::Answered(pipeline.update(edits)),
    }
}

// What has left in a step.
fn sent(pipeline: &Pipeline) -> Outcome
    ensures { outcome_of result ≡ Sends (departed_of pipeline.now) }
{
    Outcome::Sent(pipeline.left().copied())
}
