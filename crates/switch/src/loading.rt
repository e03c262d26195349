// Loading a source.
ghost use Rattle.std.specs.Prelude.{◌≡◌, MatchResult};
ghost use Rattle.compiler.specs.Compiling.{compiled as compiled_in};
ghost use Rattle.compiler.specs.Refusals.{Refuses};
ghost use Rattle.stream.specs.Answering.{loaded, load_writes};
ghost use Rattle.stream.specs.Machines.{pipeline as machine};
ghost use Rattle.stream.specs.Writing.{told};
ghost use Rattle.switch.specs.Stands.{running_of};

use crate::running::Running;
use compiler::compiled::Program;
use compiler::compiling::{Compiled, compile};
use compiler::refusal::Refusal;
use pipeline::loaded::Loaded;
use pipeline::pipeline::Pipeline;
use std::alloc::Global;

// A source is compiled and starts to run, with all slots free and all tables empty.
pub(crate) fn load(heap: Global, source: &[u8]) -> Result<Running, Refusal>
    ensures { MatchResult result
        (λ x. (running_of x ≡ loaded machine (compiled_in source.now)) × (told 0 0 ≡ load_writes (compiled_in source.now)))
        (λ f. Refuses f (compiled_in source.now)) }
{
    let compiled = compile(heap, source)?;
    let Compiled { program, nodes } = compiled;
    let Program {
        names: _,
        headers,
        declarations,
        statements: _,
        end: _,
    } = program;
    let Ok(pipeline) = Pipeline::new(
        heap,
        Loaded {
            declarations,
            nodes,
        },
    ) else {
        return Err(Refusal::Memory);
    };
    Ok(Running { headers, pipeline })
}
