// Numbers out of the bits of bytes, high bit first.
ghost use Rattle.std.specs.Prelude.{◌≡◌, ◌+◌, ◌*◌, ◌≤◌, length, take, drop};
ghost use Rattle.packet.specs.Bits.{bits_of, number_of};

use program::field::Width;

// Bytes of a packet, so at most 2,048.
#[derive(Clone, Copy)]
pub(crate) struct Bytes<'a> {
    pub(crate) all: &'a [u8],
    ghost short: { length all.now ≤ 2048 },
}

impl Bytes<'_> {
    // The number that the bits from `at` on stand for, as many as a field has.
    pub(crate) fn number_at(&self, at: usize, width: Width) -> u32
        requires { at + width.bits ≤ 8 * length self.now.all.now }
        ensures { result ≡ number_of (take width.bits (drop at (bits_of self.now.all.now))) }
    {
        let end = at + width.bits as usize;
        let last = end.div_ceil(8);
        let touched = joined(&self.all[at / 8..last]);
        ((touched >> (8 * last - end)) % (1u64 << width.bits)) as u32
    }
}

// At most five bytes as one number: from_be_bytes takes eight, which would have to be put together first.
fn joined(bytes: &[u8]) -> u64
    requires { length bytes.now ≤ 5 }
    ensures { result ≡ number_of (bits_of bytes.now) }
{
    let mut number = 0u64;
    for byte in bytes {
        number = number * 256 + *byte as u64;
    }
    number
}
