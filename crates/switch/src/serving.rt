// Frames of a program that runs.
ghost use Rattle.std.specs.Prelude.{◌≡◌, ◌<◌, ◌≤◌, ◌++◌, length, drop};
ghost use Rattle.pipeline.specs.Pipeline.{departed_of};
ghost use Rattle.stream.specs.Answering.{writes, next};
ghost use Rattle.stream.specs.Frames.{Frame, Update, Packet, Pause};
ghost use Rattle.stream.specs.Machines.{pipeline as machine};
ghost use Rattle.stream.specs.Writing.{sent_all};
ghost use Rattle.switch.specs.Stands.{running_format, running_of};
ghost use Rattle.switch.specs.Starving.{Done};

use crate::running::Running;
use crate::sending::send;
use crate::writing::{Room, refuse, tell};
use codes::answer::Answer;
use codes::code::Code;
use packet::format::Format;
use pipeline::answer::OldPacketUnderWay;
use pipeline::packet::Incoming;
use std::alloc::Global;
use update::decoding::decode;

// The bits of the present headers. A proof knows of a byte that is passed that it is below 256, and not of one within what `parse` gave.
fn eight(present: u8) -> u8
    ensures same { result ≡ present }
    ensures small { result < 256 }
{
    present
}

impl Running {
    // What has left in a step is sent.
    fn leave(&self, out: &mut [u8]) -> usize
        requires { 4100 ≤ length out.old }
        ensures writes { out.new ≡ sent_all (running_format self.now) (departed_of self.now.pipeline) ++ drop result out.old }
        ensures small { result ≤ 4100 }
    {
        match self.pipeline.left() {
            Some(packet) => {
                let loaded = self.pipeline.loaded();
                send(out, &self.headers, &loaded.declarations, packet)
            }
            None => 0,
        }
    }

    // A step that brings nothing.
    pub(crate) fn pause(&mut self, out: &mut Room) -> usize
        ensures writes { out.new ≡ writes machine (running_of self.old) Pause ++ drop result out.old }
        ensures next { running_of self.new ≡ next machine (running_of self.old) Pause }
        ensures small { result ≤ 4100 }
    {
        self.pipeline.idle();
        self.leave(out)
    }

    // A packet is taken apart and comes in; or it is refused, and its step brings nothing.
    pub(crate) fn packet(&mut self, body: &[u8], out: &mut Room) -> usize
        ensures writes { out.new ≡ writes machine (running_of self.old) (Packet body.now) ++ drop result out.old }
        ensures next { running_of self.new ≡ next machine (running_of self.old) (Packet body.now) }
        ensures small { result ≤ 4102 }
    {
        let loaded = self.pipeline.loaded();
        let format = Format {
            headers: &self.headers,
            widths: &loaded.declarations.widths,
        };
        let parsed = format.parse(body);
        match parsed {
            Ok(parsed) => {
                self.pipeline.step(Incoming {
                    fields: &parsed.fields,
                    present: eight(parsed.present),
                    payload: parsed.payload,
                });
                self.leave(out)
            }
            Err(refused) => {
                let told = refuse(out, refused.code());
                self.pipeline.idle();
                told + self.leave(&mut out[told..])
            }
        }
    }

    // An update is taken as a whole, or refused as a whole.
    pub(crate) fn update(&mut self, heap: Global, body: &[u8], out: &mut Room) -> usize
        ensures does { (g : Frame) × Done (Update body.now) g × (out.new ≡ writes machine (running_of self.old) g ++ drop result out.old) × (running_of self.new ≡ next machine (running_of self.old) g) }
        ensures count { result ≡ 6 }
    {
        let loaded = self.pipeline.loaded();
        match decode(heap, &loaded.declarations, body) {
            Ok(edits) => match self.pipeline.update(edits) {
                Ok(()) => tell(out, Code::Taken, 0),
                Err(OldPacketUnderWay) => tell(out, Code::Version, 0),
            },
            Err(fault) => {
                let Answer { code, offset } = fault.answer();
                tell(out, code, offset)
            }
        }
    }
}
