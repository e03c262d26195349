// Reading on behind what is held, and letting go of what was served.
ghost use Rattle.std.specs.Prelude.{◌≡◌, ◌≤◌, ◌<◌, ◌+◌, true, false, [], length, drop, take, IfOk, OnOk, OnErr, IfErr};
ghost use Rattle.std.specs.Io.{StartsWith, appended_bytes};
ghost use Rattle.std.specs.Io.KnownBytes.{Consumes, IsAtEnd, Keeps};
ghost use Rattle.console.specs.Holding.{held_bytes, held_size, held_room};

use crate::failure::Failure;
use crate::held::Held;
use std::alloc::Global;
use std::io::{ErrorKind, Read};

// As much as the buffer grows by, and at the start as much as is read at once.
const PIECE: usize = 262_144;

// As much as can be held with the memory that is there from the start: more than the frame of a packet, and a piece.
const ROOM: usize = 1_048_576;

impl Held {
    // Nothing yet.
    pub fn new(heap: Global) -> Result<Held, Failure>
        ensures nothing { IfOk result (λ held. held_bytes held ≡ []) }
        ensures room { IfOk result (λ held. 1048576 ≤ held_room held) }
        ensures err { IfErr result (λ e. e ≡ Failure.Memory) }
    {
        let mut buffer = Vec::with_capacity(heap, ROOM)?;
        buffer.resize(PIECE, 0)?;
        Ok(Held { buffer, filled: 0 })
    }

    pub fn bytes(&self) -> &[u8]
        ensures { result.now ≡ held_bytes self.now }
    {
        &self.buffer[..self.filled]
    }

    // Reads once behind what is held, which grows by what came, and says whether there was anything left to read. Memory follows what came, and
    // not what a length field says; it is asked for only where what is held fills the buffer, and there is no room for a piece more.
    pub fn read_on<R: Read>(&mut self, input: &mut R) -> Result<bool, Failure>
        ensures appends { StartsWith (held_bytes self.new) (held_bytes self.old) }
        ensures came { OnOk result (Consumes (R.remaining input.old) (R.remaining input.new) (appended_bytes (held_bytes self.old) (held_bytes self.new))) }
        ensures more { IfOk result (λ more. more ≡ true → length (held_bytes self.old) < length (held_bytes self.new)) }
        ensures ends { IfOk result (λ more. more ≡ false → (held_bytes self.new ≡ held_bytes self.old) × IsAtEnd (R.remaining input.new)) }
        ensures err { OnErr result (held_bytes self.new ≡ held_bytes self.old) }
        ensures untaken { OnErr result (Keeps (R.remaining input.old) (R.remaining input.new)) }
        ensures memory { IfErr result (λ e. e ≡ Failure.Memory → (length (held_bytes self.old) ≡ held_size self.old) × (held_room self.old < held_size self.old + 262144)) }
        ensures room { held_room self.old ≤ held_room self.new }
    {
        self.make_room()?;
        let came = read_at(input, self.buffer.as_mut_slice(), self.filled)?;
        self.filled += came;
        Ok(came > 0)
    }

    // Sees to it that there is room behind what is held.
    fn make_room(&mut self) -> Result<(), Failure>
        ensures same { self.new.filled ≡ self.old.filled }
        ensures bytes { held_bytes self.new ≡ held_bytes self.old }
        ensures some { OnOk result (self.new.filled < length self.new.buffer.items) }
        ensures err { IfErr result (λ e. (e ≡ Failure.Memory) × (length (held_bytes self.old) ≡ held_size self.old) × (held_room self.old < held_size self.old + 262144)) }
        ensures room { held_room self.old ≤ held_room self.new }
    {
        let size = self.buffer.len();
        if self.filled < size {
            return Ok(());
        }
        Ok(self.buffer.resize(size.saturating_add(PIECE), 0)?)
    }

    // The first `used` of the bytes that are held go; the others move to the front.
    pub fn release(&mut self, used: usize)
        ensures rest { held_bytes self.new ≡ drop used (held_bytes self.old) }
        ensures size { held_size self.new ≡ held_size self.old }
        ensures room { held_room self.new ≡ held_room self.old }
    {
        // While a long frame comes in, what is held of it stays where it is.
        if used == 0 {
            return;
        }
        let used = used.min(self.filled);
        self.buffer.copy_within(used..self.filled, 0);
        self.filled -= used;
    }
}

// One read behind the first `at` bytes of a buffer.
fn read_at<R: Read>(input: &mut R, buffer: &mut [u8], at: usize) -> Result<usize, Failure>
    requires { at < length buffer.old }
    ensures front { take at buffer.new ≡ take at buffer.old }
    ensures fits { IfOk result (λ came. at + came ≤ length buffer.new) }
    ensures came { IfOk result (λ came. Consumes (R.remaining input.old) (R.remaining input.new) (take came (drop at buffer.new))) }
    ensures ends { IfOk result (λ came. came ≡ 0 → IsAtEnd (R.remaining input.new)) }
    ensures err { IfErr result (λ e. (error : _) × (e ≡ Failure.Input error)) }
    ensures untaken { OnErr result (Keeps (R.remaining input.old) (R.remaining input.new)) }
{
    read(input, &mut buffer[at..])
}

// One read, and another where that was interrupted.
fn read<R: Read>(input: &mut R, to: &mut [u8]) -> Result<usize, Failure>
    ensures bound { IfOk result (λ came. came ≤ length to.new) }
    ensures came { IfOk result (λ came. Consumes (R.remaining input.old) (R.remaining input.new) (take came to.new)) }
    ensures ends { IfOk result (λ came. came ≡ 0 → 0 < length to.old → IsAtEnd (R.remaining input.new)) }
    ensures err { IfErr result (λ e. (error : _) × (e ≡ Failure.Input error)) }
    ensures untaken { OnErr result (Keeps (R.remaining input.old) (R.remaining input.new)) }
{
    for _ in 0..u64::MAX {
        match input.read(to) {
            Ok(came) => return Ok(came),
            Err(error) if error.kind() == ErrorKind::Interrupted => {}
            Err(error) => return Err(Failure::Input(error)),
        }
    }
    Err(Failure::Input(ErrorKind::Interrupted.into()))
}

#[cfg(test)]
mod tests {
    use crate::held::Held;
    use std::test::*;

    // What comes stands behind what was held, until there is nothing left.
    #[test]
    fn reads_to_the_end(rt: HostRuntime) -> Result<(), Fail> {
        let mut first: &[u8] = b"held ";
        let mut input: &[u8] = b"frames";
        let Ok(mut held) = Held::new(rt.alloc()) else {
            return Err(Fail::new("no memory"));
        };
        let (Ok(true), Ok(true)) = (held.read_on(&mut first), held.read_on(&mut input)) else {
            return Err(Fail::new("not read"));
        };
        assert!(rt; held.bytes() == b"held frames".as_slice());
        let Ok(false) = held.read_on(&mut input) else {
            return Err(Fail::new("not read to the end"));
        };
        assert!(rt; held.bytes() == b"held frames".as_slice());
        held.release(5);
        assert!(rt; held.bytes() == b"frames".as_slice());
        Ok(())
    }

    // More than the buffer is at the start: it grows, and keeps what it has.
    #[test]
    fn grows_with_what_comes(rt: HostRuntime) -> Result<(), Fail> {
        let long = vec![in rt.alloc(); 7u8; 300_000]?;
        let mut input: &[u8] = &long;
        let Ok(mut held) = Held::new(rt.alloc()) else {
            return Err(Fail::new("no memory"));
        };
        let (Ok(true), Ok(true), Ok(false)) = (
            held.read_on(&mut input),
            held.read_on(&mut input),
            held.read_on(&mut input),
        ) else {
            return Err(Fail::new("not read to the end"));
        };
        assert!(rt; held.bytes() == long.as_slice());
        Ok(())
    }
}
