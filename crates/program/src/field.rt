// Fields by their numbers, tables by theirs, and widths in bits.
ghost use Rattle.std.specs.Prelude.{◌≡◌, ◌<◌, ◌≤◌, MatchOption};

// One of so many, by its number.
#[derive(Clone, Copy, Debug, PartialEq, Eq)]
pub struct No<const N: u8> {
    pub at: u8,
    ghost ok: { at < N },
}

impl<const N: u8> No<N> {
    // The one of this number, if there are so many.
    pub fn new(number: usize) -> Option<Self>
        ensures { MatchOption result (N ≤ number) (λ n. n.at ≡ number) }
    {
        if number < usize::from(N) {
            Some(No { at: number as u8 })
        } else {
            None
        }
    }
}

// A field of a program: one of 64, of which number 0 is the egress port.
pub type FieldNo = No<64>;

// A table of a program: one of 32.
pub type TableNo = No<32>;

// The bits of a field, at most 32.
#[derive(Clone, Copy, Debug, PartialEq, Eq)]
pub struct Width {
    pub bits: u8,
    ghost narrow: { bits ≤ 32 },
}

impl Width {
    // So many bits, if a field may have them.
    pub fn new(bits: u8) -> Option<Self>
        ensures { MatchOption result (32 < bits) (λ w. w.bits ≡ bits) }
    {
        if bits <= 32 {
            Some(Width { bits })
        } else {
            None
        }
    }
}

// The bits of each field.
#[derive(Clone, Copy)]
pub struct Widths {
    pub of: [Width; 64],
}

// The values of a packet's 64 fields.
#[derive(Clone, Copy)]
pub struct Fields {
    pub of: [u32; 64],
}
