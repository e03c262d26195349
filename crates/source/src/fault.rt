// Why a source is refused.
ghost use Rattle.std.specs.Prelude.{◌≡◌, Some};
ghost use Rattle.source.specs.declared.fault.Fault.TheVariants.{Memory};
ghost use Rattle.source.specs.Faults.{words_of};

use std::alloc::{AllocError, AllocFailed};
use std::fmt;

#[derive(Clone, Copy, Debug, PartialEq, Eq)]
pub enum Fault {
    // A token that the grammar does not await.
    Unawaited { at: usize },
    // A name that is unknown, ambiguous or taken.
    Name { at: usize },
    // A number out of its range, or a name that is too long to be declared.
    Range { at: usize },
    // A header with no bits, not of whole bytes, or of more than 32 bytes.
    Header { at: usize },
    // A ninth block inside one another.
    Depth { at: usize },
    // A table that may be applied twice on a path.
    Twice { at: usize },
    // More of something than there may be, or no `first` or `do`.
    Count { at: usize },
    // Want of memory.
    Memory,
}

// What is wrong, in words.
impl fmt::Display for Fault {
    ghost output = { λ f. Some (words_of f) };

    fn fmt<W: fmt::Write>(&self, f: &mut fmt::Formatter<W>) -> fmt::Result {
        f.write_str(match self {
            Fault::Unawaited { .. } => "this is not awaited here",
            Fault::Name { .. } => "this name is unknown here, ambiguous, or taken",
            Fault::Range { .. } =>
                "this number is out of its range, or this name is longer than 24 characters",
            Fault::Header { .. } =>
                "this header has no bits, no whole bytes, or more than 32 bytes",
            Fault::Depth { .. } => "this block is the ninth inside one another",
            Fault::Twice { .. } => "this table may have been applied before on a path to here",
            Fault::Count { .. } =>
                "this is one too many, or the source ends with no first or no do",
            Fault::Memory => "there is not enough memory",
        })
    }
}

// Two errors of the library, and so two impls alike: no trait covers both.
impl From<AllocError> for Fault {
    ghost from_gives = { λ _ f. f ≡ Memory };

    fn from(_error: AllocError) -> Fault {
        Fault::Memory
    }
}

impl<T: Drop> From<AllocFailed<T>> for Fault {
    ghost from_gives = { λ _ f. f ≡ Memory };

    fn from(_refused: AllocFailed<T>) -> Fault {
        Fault::Memory
    }
}
