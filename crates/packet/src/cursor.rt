// Bits on their way into bytes, high bit first.
ghost use Rattle.std.specs.Prelude.{◌≡◌, ◌+◌, ◌*◌, ◌^◌, ◌<◌, ◌≤◌, ◌++◌, length, take};
ghost use Rattle.packet.specs.Bits.{bits_of, bits_of_number};

use program::field::Width;

// The bytes before `at` are whole, and the bits that wait are the lowest `held` of `waiting`.
#[derive(Clone, Copy)]
pub(crate) struct Cursor {
    pub(crate) at: usize,
    pub(crate) held: u8,
    pub(crate) waiting: u64,
    ghost few: { held < 8 },
    ghost small: { waiting < 2 ^ held },
}

impl Cursor {
    // Before the first bit.
    pub(crate) fn new() -> Cursor
        ensures at { result.at ≡ 0 }
        ensures held { result.held ≡ 0 }
        ensures waiting { result.waiting ≡ 0 }
    {
        Cursor {
            at: 0,
            held: 0,
            waiting: 0,
        }
    }

    // The lowest bits of a value, as many as a field has, follow the bits that wait; whole bytes are written.
    pub(crate) fn put(self, out: &mut [u8], value: u32, width: Width) -> Cursor
        requires room { 8 * self.at + self.held + width.bits ≤ 8 * length out.old }
        ensures bits { bits_of (take result.at out.new) ++ bits_of_number result.held result.waiting ≡ bits_of (take self.at out.old) ++ (bits_of_number self.held self.waiting ++ bits_of_number width.bits value) }
        ensures count { 8 * result.at + result.held ≡ 8 * self.at + self.held + width.bits }
    {
        let mut at = self.at;
        let mut held = self.held + width.bits;
        let mut waiting = self.waiting * (1u64 << width.bits) + value as u64 % (1u64 << width.bits);
        // Byte by byte: a proof does not know what a `for` over a lent slice has written.
        while held >= 8 {
            held -= 8;
            out[at] = (waiting >> held) as u8;
            waiting %= 1u64 << held;
            at += 1;
        }
        Cursor { at, held, waiting }
    }
}
