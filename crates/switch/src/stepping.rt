// The frame at the front of the bytes at hand.
ghost use Rattle.std.specs.Prelude.{◌≡◌, ◌<◌, ◌≤◌, ◌⊎◌, [], ◌++◌, length, MatchOption, IfSome};
ghost use Rattle.switch.specs.Stands.{mode_of};
ghost use Rattle.switch.specs.Stepping.{Steps};

use crate::feeding::LONGEST_ANSWER;
use crate::switch::Switch;
use crate::writing::Room;
use frames::front::Next;
use frames::reader::next;

// How many bytes of the input were used, and how many of the output were written: the output is lent by the caller, so that nothing is allocated.
#[derive(Clone, Copy, Debug, PartialEq, Eq, Hash)]
pub struct Progress {
    pub used: usize,
    pub written: usize,
}

impl Switch {
    // Does the frame at the front of `bytes`, and writes what it is answered to the front of `out`, if that has room for the longest answer; where
    // no frame is whole, nothing.
    pub(crate) fn step(&mut self, bytes: &[u8], out: &mut [u8]) -> Option<Progress>
        ensures does { MatchOption result ((length out.old < 4102) × (out.new ≡ out.old) × (mode_of self.new.state ≡ mode_of self.old.state)) (λ p. Steps (mode_of self.old.state) (mode_of self.new.state) bytes.now out.old out.new p.used p.written) }
        ensures used { IfSome result (λ p. p.used ≤ length bytes.now) }
        ensures written { IfSome result (λ p. p.written ≤ length out.old) }
    {
        let Some((room, _rest)) = out.split_first_chunk_mut::<LONGEST_ANSWER>() else {
            return None;
        };
        Some(self.front(bytes, room))
    }

    fn front(&mut self, bytes: &[u8], out: &mut Room) -> Progress
        ensures does { Steps (mode_of self.old.state) (mode_of self.new.state) bytes.now out.old out.new result.used result.written }
        ensures used { result.used ≤ length bytes.now }
        ensures written { result.written ≤ length out.old }
    {
        match next(bytes) {
            Next::Empty | Next::Cut { .. } => Progress {
                used: 0,
                written: 0,
            },
            Next::Pause { rest } => Progress {
                used: bytes.len() - rest.len(),
                written: self.pause(out),
            },
            Next::Whole { kind, body, rest } => Progress {
                used: bytes.len() - rest.len(),
                written: self.whole(kind, body, out),
            },
            Next::Unknown => Progress {
                used: bytes.len(),
                written: self.unknown(out),
            },
        }
    }
}
