// The answers to frames, written to the front of lent bytes.
ghost use Rattle.std.specs.Prelude.{◌≡◌, ◌≤◌, ◌++◌, length, drop};
ghost use Rattle.codes.specs.Codes.{number_of};
ghost use Rattle.stream.specs.Writing.{told, refused};

use crate::feeding::LONGEST_ANSWER;
use codes::code::Code;

// Room for whatever a frame is answered.
pub(crate) type Room = [u8; LONGEST_ANSWER];

// A source or an update is answered by its code and offset.
pub(crate) fn tell(out: &mut [u8], code: Code, offset: usize) -> usize
    requires { 6 ≤ length out.old }
    ensures writes { out.new ≡ told (number_of code) offset ++ drop result out.old }
    ensures count { result ≡ 6 }
{
    let [_, _, _, _, a, b, c, d] = offset.to_be_bytes();
    out[..6].copy_from_slice(&[17, code.into(), a, b, c, d]);
    6
}

// A packet that is refused, or an unknown kind, is answered by a code.
pub(crate) fn refuse(out: &mut [u8], code: Code) -> usize
    requires { 2 ≤ length out.old }
    ensures writes { out.new ≡ refused (number_of code) ++ drop result out.old }
    ensures count { result ≡ 2 }
{
    out[..2].copy_from_slice(&[18, code.into()]);
    2
}
