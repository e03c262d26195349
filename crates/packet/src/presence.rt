// Which headers a packet has, one bit each. A bare byte: pipeline and switch only carry it, so a type for it would move these two functions to crate program and shorten no clause.
ghost use Rattle.std.specs.Prelude.{◌≡◌, ◌<◌, true};
ghost use Rattle.packet.specs.Contents.{with as with_in};
ghost use Rattle.packet.specs.Stands.{present_of};

// The most headers that a source has.
const MOST: usize = 8;

// The headers with one more.
pub(crate) fn with(present: u8, number: usize) -> u8
    requires { number < 8 }
    ensures { present_of result ≡ with_in number (present_of present) }
{
    present | 1u8 << number
}

// Whether a header is there.
pub(crate) fn has(present: u8, number: usize) -> bool
    ensures value { result ≡ present_of present number }
    ensures within { result ≡ true → number < 8 }
{
    number < MOST && (present >> number) % 2 == 1
}
