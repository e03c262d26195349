// Making and comparing names.
ghost use Rattle.std.specs.Prelude.{◌≡◌, ◌<◌, length, MatchOption};
ghost use Rattle.std.specs.Str.{bytes_eq};
ghost use Rattle.source.specs.Names.{name_of};

use crate::name::Name;
use few::few::Few;

impl Name {
    // The name that a word gives, and none if it is too long.
    pub fn of(word: &[u8]) -> Option<Name>
        ensures { MatchOption result (24 < length word.now) (λ n. (length word.now < 25) × (name_of n ≡ word.now)) }
    {
        Some(Name {
            chars: Few::of(word)?,
        })
    }

    // The name as a word.
    pub fn word(&self) -> &[u8]
        ensures { result.now ≡ name_of self.now }
    {
        self.chars.as_slice()
    }

    // Whether a word is this name.
    pub fn is(&self, word: &[u8]) -> bool
        ensures { result ≡ bytes_eq (name_of self.now) word.now }
    {
        self.word() == word
    }
}
