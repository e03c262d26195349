// Why an update is not written.
ghost use Rattle.std.specs.Prelude.{◌≡◌};
ghost use Rattle.encoding.specs.declared.unwritten.Unwritten.TheVariants.{NoMemory};

use std::alloc::AllocError;

#[derive(Clone, Copy)]
pub enum Unwritten {
    // More tables than one byte counts, or more entries of a table than two do.
    TooMany,
    NoMemory,
}

impl From<AllocError> for Unwritten {
    ghost from_gives = { λ _ e. e ≡ NoMemory };

    fn from(_error: AllocError) -> Unwritten {
        Unwritten::NoMemory
    }
}
