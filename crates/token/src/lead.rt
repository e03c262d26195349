// The token at the front of what is left of a source.
ghost use Rattle.std.specs.Prelude.{◌≡◌, ◌==◌, ◌^◌, ◌≤◌, length, not, Some};
ghost use Rattle.std.specs.List.{prefix_len};
ghost use Rattle.std.specs.Char.{is_ascii_alphanumeric};
ghost use Rattle.token.specs.Tokens.{gap as gap_of, value_behind, hexadecimal as hexadecimal_of, run_kind, single as single_of, lead as lead_at, number as number_or};
ghost use Rattle.token.specs.Tokens as tokens;
ghost use Rattle.token.specs.Stands.{kind_of, lead_of, capped};

use crate::token::{Kind, Lead, Sign};

const HUGE: u64 = 1 << 32;

// How many bytes a comment has: all up to the next LF.
fn line(bytes: &[u8]) -> usize
    ensures value { result ≡ prefix_len (λ b. not (b == 10)) bytes.now }
    ensures within { result ≤ length bytes.now }
{
    bytes.iter().take_while(|byte| **byte != b'\n').count()
}

// How many letters and digits stand at the front.
fn run_width(bytes: &[u8]) -> usize
    ensures value { result ≡ prefix_len is_ascii_alphanumeric bytes.now }
    ensures within { result ≤ length bytes.now }
{
    bytes
        .iter()
        .take_while(|byte| byte.is_ascii_alphanumeric())
        .count()
}

// How many bytes the white space or the comment at the front has.
pub fn gap(bytes: &[u8]) -> usize
    ensures value { result ≡ gap_of bytes.now }
    ensures within { result ≤ length bytes.now }
{
    match bytes {
        [b' ' | b'\t' | b'\n' | b'\r', ..] => 1,
        [b'/', b'/', ..] => line(bytes),
        _ => 0,
    }
}

// The number that digits stand for, and none if they are not all digits. Numbers from 2^32 on all count as that one: a bound of the sum, no plainer as a kind of its own, since `number` tells it apart.
fn value(base: u32, digits: &[u8]) -> Option<u64>
    requires { (2 ≤ base) × (base ≤ 16) }
    ensures { result ≡ capped (value_behind base 0 digits.now) }
{
    let mut sum = 0;
    for byte in digits {
        let digit = (*byte as char).to_digit(base)?;
        sum = (sum * base as u64 + digit as u64).min(HUGE);
    }
    Some(sum)
}

// The number that `0x` and digits behind it stand for, and none for any other run.
fn hexadecimal(run: &[u8]) -> Option<u64>
    ensures { result ≡ capped (hexadecimal_of run.now) }
{
    match run {
        [b'0', b'x', digits @ ..] if !digits.is_empty() => value(16, digits),
        _ => None,
    }
}

// A run of letters and digits: a number or a word.
fn run(bytes: &[u8]) -> Kind<'_>
    ensures { kind_of result ≡ run_kind bytes.now }
{
    match value(10, bytes).or(hexadecimal(bytes)) {
        Some(n) => number(n),
        None => Kind::Word(bytes),
    }
}

fn number(n: u64) -> Kind<'static>
    ensures { (k : tokens.Kind) → kind_of result ≡ number_or (Some n) k }
{
    match u32::try_from(n) {
        Ok(n) => Kind::Number(n),
        _ => Kind::Huge,
    }
}

// The sign of one byte.
fn single(byte: u8) -> Option<Sign>
    ensures { result ≡ single_of byte }
{
    match byte {
        b'{' => Some(Sign::Open),
        b'}' => Some(Sign::Close),
        b';' => Some(Sign::Semicolon),
        b':' => Some(Sign::Colon),
        b',' => Some(Sign::Comma),
        b'.' => Some(Sign::Dot),
        b'=' => Some(Sign::Is),
        b'<' => Some(Sign::Less),
        _ => None,
    }
}

// The token at the front, where no white space and no comment stands.
#[tactic(auto, using(crate::proofs::Stretches::front_run, crate::proofs::Stretches::same_letters))]
pub fn lead(bytes: &[u8]) -> Lead<'_>
    ensures value { lead_of result ≡ lead_at bytes.now }
    ensures within { result.width ≤ length bytes.now }
{
    match bytes {
        [] => Lead {
            kind: Kind::End,
            width: 0,
        },
        [first, ..] if first.is_ascii_alphanumeric() => {
            let width = run_width(bytes);
            Lead {
                kind: run(&bytes[..width]),
                width,
            }
        }
        [b'=', b'=', ..] => Lead {
            kind: Kind::Sign(Sign::Equals),
            width: 2,
        },
        [first, ..] => Lead {
            kind: match single(*first) {
                Some(sign) => Kind::Sign(sign),
                None => Kind::Other,
            },
            width: 1,
        },
    }
}
