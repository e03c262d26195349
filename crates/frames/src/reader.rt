// Reading the frame at the front of the bytes at hand.
ghost use Rattle.std.specs.Prelude.{◌≡◌, ◌<◌, ◌≤◌, length, take, drop, MatchOption};
ghost use Rattle.frames.specs.Reading.{read, number, length_bytes, behind_kind};
ghost use Rattle.frames.specs.Stands.{read_of};

use crate::front::Next;
use crate::kind::Kind;
use crate::opening::Opening;

// What stands at the front of `bytes`. Nothing is copied, and no more is looked at than the kind
// byte and the length field.
pub fn next(bytes: &[u8]) -> Next<'_>
    ensures { read_of result ≡ read bytes.now }
{
    let Some((first, rest)) = bytes.split_first() else {
        return Next::Empty;
    };
    match Opening::from(*first) {
        Opening::Framed(kind) => framed(kind, rest),
        Opening::Pause => Next::Pause { rest },
        Opening::Unknown => Next::Unknown,
    }
}

// The frame of this kind whose kind byte stands right before `bytes`.
fn framed(kind: Kind, bytes: &[u8]) -> Next<'_>
    ensures { read_of result ≡ behind_kind kind bytes.now }
{
    let Some((length, bytes)) = length_field(kind, bytes) else {
        return Next::Cut { kind };
    };
    if bytes.len() < length {
        return Next::Cut { kind };
    }
    let (body, rest) = bytes.split_at(length);
    Next::Whole { kind, body, rest }
}

// The length at the front of `bytes`, high byte first, and what follows it; `None` if it is cut.
fn length_field(kind: Kind, bytes: &[u8]) -> Option<(usize, &[u8])>
    ensures { MatchOption result (length bytes.now < length_bytes kind) (λ p. (length_bytes kind ≤ length bytes.now) × (p.0 ≡ number (take (length_bytes kind) bytes.now)) × (p.1.now ≡ drop (length_bytes kind) bytes.now)) }
{
    match kind {
        Kind::Source | Kind::Update => {
            let (field, rest) = bytes.split_first_chunk::<4>()?;
            Some((u32::from_be_bytes(*field) as usize, rest))
        }
        Kind::Packet => {
            let (field, rest) = bytes.split_first_chunk::<2>()?;
            Some((u16::from_be_bytes(*field) as usize, rest))
        }
    }
}
