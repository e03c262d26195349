// Why the program ends with status 1.
use console::failure::Failure as Common;
use std::alloc::AllocError;
use std::io;
use thiserror::Error;

#[derive(Debug, Drop, Error)]
pub(crate) enum Failure {
    #[error(transparent)]
    Common(#[from] Common),
    #[error("cannot open the source: {0}")]
    Open(io::Error),
    #[error("the source is longer than offsets can say")]
    TooLong,
    // The source was refused, and its code and offset were printed.
    #[error("the source is refused")]
    Refused,
}

impl From<AllocError> for Failure {
    fn from(error: AllocError) -> Failure {
        Failure::Common(Common::from(error))
    }
}

// What `println!` and the like come to: an error of another type, so another impl.
impl From<io::Error> for Failure {
    fn from(error: io::Error) -> Failure {
        Failure::Common(Common::Output(error))
    }
}
