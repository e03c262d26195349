// What is to be done about the front of the bytes at hand, decided before anything is written.
ghost use Rattle.std.specs.Prelude.{◌≡◌};
ghost use Rattle.frames.specs.Does.{done_of};
ghost use Rattle.frames.specs.Serving.{served, silent, answers, on_whole, on_cut};

use crate::answer::Answer;
use crate::front::Next;
use crate::kind::Kind;
use crate::reader::next;
use crate::served::Served;

#[derive(Clone, Copy, Debug, PartialEq, Eq, Hash)]
pub struct Step {
    pub answer: Option<Answer>,
    pub result: Served,
}

impl Step {
    // The step for `bytes`, where `ended` says that no bytes come behind them.
    pub fn of(bytes: &[u8], ended: bool) -> Step
        ensures { done_of result ≡ served bytes.now ended }
    {
        match next(bytes) {
            Next::Empty => Step::without_answer(if ended { Served::End } else { Served::More }),
            Next::Pause { .. } => Step::without_answer(Served::Frame { used: 1 }),
            Next::Whole { kind, rest, .. } => Step::whole(kind, bytes.len() - rest.len()),
            Next::Cut { kind } => Step::cut(kind, ended),
            Next::Unknown => Step::answered(Answer::UnknownKind, Served::End),
        }
    }

    fn whole(kind: Kind, used: usize) -> Step
        ensures { done_of result ≡ on_whole kind used }
    {
        let frame = Served::Frame { used };
        match kind {
            Kind::Source => Step::without_answer(Served::AtSource),
            Kind::Update => Step::answered(Answer::UpdateWithoutProgram, frame),
            Kind::Packet => Step::answered(Answer::PacketWithoutProgram, frame),
        }
    }

    // That a frame is cut is answered before that there is no program for it.
    fn cut(kind: Kind, ended: bool) -> Step
        ensures { done_of result ≡ on_cut kind ended }
    {
        if !ended {
            return Step::without_answer(Served::More);
        }
        Step::answered(Answer::Cut(kind), Served::End)
    }

    fn without_answer(res: Served) -> Step
        ensures { done_of result ≡ silent res }
    {
        Step {
            answer: None,
            result: res,
        }
    }

    fn answered(answer: Answer, res: Served) -> Step
        ensures { done_of result ≡ answers answer res }
    {
        Step {
            answer: Some(answer),
            result: res,
        }
    }
}
