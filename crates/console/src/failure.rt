// Why a program ends before its work does.
use std::alloc::AllocError;
use std::io;
use thiserror::Error;

#[derive(Debug, Drop, Error)]
pub enum Failure {
    #[error("cannot read the arguments: {0}")]
    Arguments(io::Error),
    // The program that was given them, by its name.
    #[error("too many arguments (see {0} --help)")]
    TooManyArguments(&'static str),
    #[error("cannot open {0}: {1}")]
    Open(String, io::Error),
    #[error("cannot read the input: {0}")]
    Input(io::Error),
    #[error("cannot write the output: {0}")]
    Output(io::Error),
    #[error("out of memory")]
    Memory,
}

impl From<AllocError> for Failure {
    ghost use Rattle.std.specs.Prelude.{◌≡◌};
    ghost use Rattle.console.specs.declared.failure.Failure.TheVariants.{Memory};

    ghost from_gives = { λ _ failure. failure ≡ Memory };

    fn from(_error: AllocError) -> Failure {
        Failure::Memory
    }
}
