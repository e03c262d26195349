// Serving frames while no program is loaded.
ghost use Rattle.std.specs.Prelude.{◌≡◌, ◌++◌, MatchResult};
ghost use Rattle.frames.specs.Serving.{served};

use crate::served::Served;
use crate::step::Step;
use std::alloc::AllocError;

// Does the one frame at the front of `bytes`, where `ended` says that no bytes come behind them, and
// appends what is answered to it. For want of memory `out` stays as it is, and nothing is done.
pub fn serve(bytes: &[u8], ended: bool, out: &mut Vec<u8>) -> Result<Served, AllocError>
    ensures { MatchResult result (λ s. (s ≡ (served bytes.now ended).result) × (out.new.items ≡ out.old.items ++ (served bytes.now ended).writes)) (λ _. out.new.items ≡ out.old.items) }
{
    let step = Step::of(bytes, ended);
    if let Some(answer) = step.answer {
        answer.write(out)?;
    }
    Ok(step.result)
}
