// Bytes in, bytes out.
ghost use Rattle.std.specs.Prelude.{◌≡◌, ◌<◌, ◌≤◌, true, ◌++◌, length, drop, MatchResult, ◌==◌};
ghost use Rattle.stream.specs.Whole.{last_words};
ghost use Rattle.stream.specs.Writing.{cut_short};
ghost use Rattle.switch.specs.Feeding.{Fed, AllFrames, is_stopped};
ghost use Rattle.switch.specs.Stands.{mode_of};

use crate::state::State;
use crate::stepping::Progress;
use crate::switch::Switch;
use crate::writing::{refuse, tell};
use codes::code::Code;
use frames::front::Next;
use frames::kind::Kind;
use frames::reader::next;

// As much as a frame may be answered: a refusal, and a packet that leaves.
pub const LONGEST_ANSWER: usize = 4102;

// The place for the bytes is too short for them.
#[derive(Clone, Copy, Debug, PartialEq, Eq, Hash)]
pub struct NoRoom;

impl Switch {
    // Does the whole frames at the front of `bytes`, one after the other, and writes the answers to the front of `out`. It stops where no frame is
    // whole, or `out` has no room for the longest answer; the bytes that were not used are to be given again, with more behind them.
    pub fn feed(&mut self, bytes: &[u8], out: &mut [u8]) -> Progress
        ensures does { Fed (mode_of self.old.state) (mode_of self.new.state) bytes.now out.old out.new result.used result.written }
        ensures all { AllFrames bytes.now out.old result.used result.written }
        ensures used { result.used ≤ length bytes.now }
        ensures written { result.written ≤ length out.old }
    {
        let mut used = 0usize;
        let mut written = 0usize;
        while let Some(step) = self.step(&bytes[used..], &mut out[written..]) {
            // A frame has a byte at least, so where none was used no frame was whole.
            if step.used == 0 {
                break;
            }
            used += step.used;
            written += step.written;
        }
        Progress { used, written }
    }

    // The input has ended, and these bytes of it are left: a frame that is cut is answered.
    pub fn finish(&self, left: &[u8], out: &mut [u8]) -> Result<usize, NoRoom>
        ensures writes { MatchResult result (λ n. out.new ≡ last_words (mode_of self.now.state) left.now ++ drop n out.old) (λ _. out.new ≡ out.old) }
        ensures room { MatchResult result (λ n. n ≤ length out.old) (λ _. length out.old < 6) }
    {
        if out.len() < 6 {
            return Err(NoRoom);
        }
        if self.has_stopped() {
            return Ok(0);
        }
        match next(left) {
            Next::Cut { kind } => Ok(cut(out, kind)),
            Next::Empty | Next::Pause { .. } | Next::Whole { .. } | Next::Unknown => Ok(0),
        }
    }

    // Whether an unknown kind came, behind which nothing more is read.
    pub fn has_stopped(&self) -> bool
        ensures { result ≡ is_stopped (mode_of self.now.state) }
    {
        matches!(self.state, State::Stopped)
    }
}

// The input ends within a frame of this kind.
fn cut(out: &mut [u8], kind: Kind) -> usize
    requires { 6 ≤ length out.old }
    ensures writes { out.new ≡ cut_short kind ++ drop result out.old }
    ensures small { result ≤ 6 }
{
    match kind {
        Kind::Source | Kind::Update => tell(out, Code::Bytes, 0),
        Kind::Packet => refuse(out, Code::Bytes),
    }
}
