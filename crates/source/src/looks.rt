// What a token is asked for.
ghost use Rattle.std.specs.Prelude.{◌≡◌, ℕ, cond, List, is_some};
ghost use Rattle.std.specs.Borrow.{Bor};
ghost use Rattle.token.specs.Stands.{token_of, kind_of};
ghost use Rattle.program.specs.declared.field.No.{No};
ghost use Rattle.source.specs.Steps.{is_sign, is_end, number_of, says as says_of, sign as sign_at, keyword as keyword_at, word as word_at, number as number_at, fresh as fresh_at, room as room_at, stop};
ghost use Rattle.source.specs.Does.{Passes, Gives};
ghost use Rattle.source.specs.Names.{name_of};
ghost use Rattle.source.specs.declared.fault.Fault.TheVariants.{Unawaited};

use crate::fault::Fault;
use crate::name::Name;
use program::field::No;
use token::token::{Kind, Sign, Token};

pub fn is_sign(x: Token<'_>, sign: Sign) -> bool
    ensures { result ≡ is_sign sign (kind_of x.entry.kind) }
{
    x.kind == Kind::Sign(sign)
}

pub fn is_end(x: Token<'_>) -> bool
    ensures { result ≡ is_end (kind_of x.entry.kind) }
{
    x.kind == Kind::End
}

pub fn is_number(x: Token<'_>) -> bool
    ensures { result ≡ is_some (number_of (kind_of x.entry.kind)) }
{
    matches!(x.kind, Kind::Number(_) | Kind::Huge)
}

pub fn says(x: Token<'_>, word: &[u8]) -> bool
    ensures { result ≡ says_of word.now (kind_of x.entry.kind) }
{
    x.kind == Kind::Word(word)
}

// What is awaited is there, or not.
fn awaited(there: bool, at: usize) -> Result<(), Fault>
    ensures { Passes (λ k. cond there k (stop (Unawaited at))) result }
{
    there.then_some(()).ok_or(Fault::Unawaited { at })
}

// One for signs and one for words, since the two are awaited in words of their own; what they share is `awaited`.
pub fn expect(x: Token<'_>, sign: Sign) -> Result<(), Fault>
    ensures { Passes (sign_at sign (token_of x.entry)) result }
{
    awaited(is_sign(x, sign), x.at)
}

pub fn expect_word(x: Token<'_>, word: &[u8]) -> Result<(), Fault>
    ensures { Passes (keyword_at word.now (token_of x.entry)) result }
{
    awaited(says(x, word), x.at)
}

pub fn word(x: Token<'_>) -> Result<&[u8], Fault>
    ensures { Gives (word_at (token_of x.entry)) (λ (w : Bor (List ℕ)). w.now) result }
{
    match x.kind {
        Kind::Word(word) => Ok(word),
        _ => Err(Fault::Unawaited { at: x.at }),
    }
}

pub fn number(x: Token<'_>) -> Result<u32, Fault>
    ensures { Gives (number_at (token_of x.entry)) (λ (n : ℕ). n) result }
{
    match x.kind {
        Kind::Number(n) => Ok(n),
        Kind::Huge => Err(Fault::Range { at: x.at }),
        _ => Err(Fault::Unawaited { at: x.at }),
    }
}

// The number of one more, if there are fewer than may be.
pub fn room<const N: u8>(count: usize, at: usize) -> Result<No<N>, Fault>
    ensures { Gives (room_at at count N) (λ (n : No N). n.at) result }
{
    No::new(count).ok_or(Fault::Count { at })
}

// The name that a word declares.
pub fn fresh(taken: bool, at: usize, word: &[u8]) -> Result<Name, Fault>
    ensures { Gives (fresh_at taken at word.now) name_of result }
{
    if taken {
        return Err(Fault::Name { at });
    }
    Name::of(word).ok_or(Fault::Range { at })
}
