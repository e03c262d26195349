// Serving an input to its end, with each answer written before the next read.
ghost use Rattle.std.specs.Prelude.{◌≤◌, length, IfOk};

use crate::failure::Failure;
use console::failure::Failure as Common;
use console::held::Held;
use console::writing::write;
use frames::served::Served;
use frames::server::serve;
use std::io::Read;

pub(crate) fn stream(rt: &HostRuntime, input: &mut impl Read) -> Result<(), Failure> {
    let mut held = Held::new(rt.alloc())?;
    let mut out = Vec::new(rt.alloc());
    // Nothing says that an input ends, so the reads are counted; none counts so far.
    for _ in 0..u64::MAX {
        let more = held.read_on(input)?;
        let stopped = serve_all(held.bytes(), !more, &mut out);
        write(rt, &out)?;
        out.clear();
        let (used, served) = stopped?;
        match served {
            Served::End => return Ok(()),
            Served::AtSource => return Err(Failure::Source),
            Served::More | Served::Frame { .. } => held.release(used),
        }
    }
    Ok(())
}

// Serves the frames at the front of `bytes` one after the other: how many bytes they are, and what
// stopped it.
fn serve_all(bytes: &[u8], ended: bool, out: &mut Vec<u8>) -> Result<(usize, Served), Common>
    ensures { IfOk result (λ p. p.0 ≤ length bytes.now) }
{
    let mut at = 0;
    loop {
        let served = serve(&bytes[at..], ended, out)?;
        let Served::Frame { used } = served else {
            return Ok((at, served));
        };
        at += used;
    }
}
