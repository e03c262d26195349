// Why the program ends before its input does.
use console::failure::Failure as Common;
use thiserror::Error;

#[derive(Debug, Drop, Error)]
pub(crate) enum Failure {
    #[error(transparent)]
    Common(#[from] Common),
    // A program's source came, which cannot be read yet.
    #[error("a source frame came, and line cannot read a source yet")]
    Source,
}
