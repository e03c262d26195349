// An input from its beginning to its end, with each answer written before the next read.
use console::failure::Failure;
use console::held::Held;
use console::writing::write;
use std::io::Read;
use switch::feeding::LONGEST_ANSWER;
use switch::stepping::Progress;
use switch::switch::Switch;

// As much as is written at once.
const PIECE: usize = 1_048_576;

pub(crate) fn stream(rt: &HostRuntime, input: &mut impl Read) -> Result<(), Failure> {
    let mut switch = Switch::new(rt.alloc());
    let mut held = Held::new(rt.alloc())?;
    let mut out = vec![in rt.alloc(); 0; PIECE]?;
    // Nothing says that an input ends, so the reads are counted; none counts so far.
    for _ in 0..u64::MAX {
        let more = held.read_on(input)?;
        serve(rt, &mut switch, &mut held, &mut out)?;
        if switch.has_stopped() {
            return Ok(());
        }
        if !more {
            return finish(rt, &switch, held.bytes(), &mut out);
        }
    }
    Ok(())
}

// Does all whole frames that are held, and writes what they are answered.
fn serve(
    rt: &HostRuntime,
    switch: &mut Switch,
    held: &mut Held,
    out: &mut [u8],
) -> Result<(), Failure> {
    for _ in 0..u64::MAX {
        let Progress { used, written } = switch.feed(held.bytes(), out);
        write(rt, &out[..written])?;
        held.release(used);
        // There was room for one answer more, so no whole frame is left.
        if used == 0 || out.len() - written >= LONGEST_ANSWER {
            return Ok(());
        }
    }
    Ok(())
}

// The input has ended.
fn finish(rt: &HostRuntime, switch: &Switch, left: &[u8], out: &mut [u8]) -> Result<(), Failure> {
    let Ok(written) = switch.finish(left, out) else {
        return Ok(());
    };
    write(rt, &out[..written])
}
