// The switch as a value.
ghost use Rattle.std.specs.Prelude.{◌≡◌, ◌≤◌, ◌++◌, length, drop};
ghost use Rattle.stream.specs.Answering.{Unloaded, writes, next};
ghost use Rattle.stream.specs.Frames.{Frame, Source, Update, Packet, Pause, Unknown, framed};
ghost use Rattle.stream.specs.Machines.{pipeline as machine};
ghost use Rattle.switch.specs.Stands.{mode_of};
ghost use Rattle.switch.specs.Starving.{Done};

use crate::loading::load;
use crate::state::State;
use crate::writing::{Room, refuse, tell};
use codes::answer::Answer;
use codes::code::Code;
use frames::kind::Kind;
use std::alloc::Global;

// What it is about, and where memory for sources and updates comes from.
#[derive(Drop)]
pub struct Switch {
    pub(crate) heap: Global,
    pub(crate) state: State,
}

impl Switch {
    // A switch with no program.
    pub fn new(heap: Global) -> Switch
        ensures { mode_of result.state ≡ Unloaded }
    {
        Switch {
            heap,
            state: State::Unloaded,
        }
    }

    // A source is taken if none was taken before.
    fn source(&mut self, body: &[u8], out: &mut Room) -> usize
        ensures does { (g : Frame) × Done (Source body.now) g × (out.new ≡ writes machine (mode_of self.old.state) g ++ drop result out.old) × (mode_of self.new.state ≡ next machine (mode_of self.old.state) g) }
        ensures small { result ≤ 6 }
    {
        match &self.state {
            State::Unloaded => match load(self.heap, body) {
                Ok(running) => {
                    self.state = State::Running(running);
                    tell(out, Code::Taken, 0)
                }
                Err(refusal) => {
                    let Answer { code, offset } = refusal.answer();
                    tell(out, code, offset)
                }
            },
            State::Running(_) => tell(out, Code::Program, 0),
            State::Stopped => 0,
        }
    }

    // An update of a program that runs.
    fn update(&mut self, body: &[u8], out: &mut Room) -> usize
        ensures does { (g : Frame) × Done (Update body.now) g × (out.new ≡ writes machine (mode_of self.old.state) g ++ drop result out.old) × (mode_of self.new.state ≡ next machine (mode_of self.old.state) g) }
        ensures small { result ≤ 6 }
    {
        match &mut self.state {
            State::Unloaded => tell(out, Code::Program, 0),
            State::Running(running) => running.update(self.heap, body, out),
            State::Stopped => 0,
        }
    }

    // A packet has its step, whether it comes in or is refused.
    fn packet(&mut self, body: &[u8], out: &mut Room) -> usize
        ensures writes { out.new ≡ writes machine (mode_of self.old.state) (Packet body.now) ++ drop result out.old }
        ensures next { mode_of self.new.state ≡ next machine (mode_of self.old.state) (Packet body.now) }
        ensures small { result ≤ 4102 }
    {
        match &mut self.state {
            State::Unloaded => refuse(out, Code::Program),
            State::Running(running) => running.packet(body, out),
            State::Stopped => 0,
        }
    }

    // A step that brings nothing.
    pub(crate) fn pause(&mut self, out: &mut Room) -> usize
        ensures writes { out.new ≡ writes machine (mode_of self.old.state) Pause ++ drop result out.old }
        ensures next { mode_of self.new.state ≡ next machine (mode_of self.old.state) Pause }
        ensures small { result ≤ 4102 }
    {
        match &mut self.state {
            State::Unloaded => 0,
            State::Running(running) => running.pause(out),
            State::Stopped => 0,
        }
    }

    // Behind an unknown kind nothing more is read.
    pub(crate) fn unknown(&mut self, out: &mut Room) -> usize
        ensures writes { out.new ≡ writes machine (mode_of self.old.state) Unknown ++ drop result out.old }
        ensures next { mode_of self.new.state ≡ next machine (mode_of self.old.state) Unknown }
        ensures small { result ≤ 4102 }
    {
        match &self.state {
            State::Stopped => 0,
            State::Unloaded | State::Running(_) => {
                self.state = State::Stopped;
                refuse(out, Code::Bytes)
            }
        }
    }

    // A whole frame.
    pub(crate) fn whole(&mut self, kind: Kind, body: &[u8], out: &mut Room) -> usize
        ensures does { (g : Frame) × Done (framed kind body.now) g × (out.new ≡ writes machine (mode_of self.old.state) g ++ drop result out.old) × (mode_of self.new.state ≡ next machine (mode_of self.old.state) g) }
        ensures small { result ≤ 4102 }
    {
        match kind {
            Kind::Source => self.source(body, out),
            Kind::Update => self.update(body, out),
            Kind::Packet => self.packet(body, out),
        }
    }
}
