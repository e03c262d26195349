// Opening an input.
ghost use Rattle.std.specs.Prelude.{◌≡◌, IfErr};

use crate::failure::Failure;
use std::fs;
use std::fs::File;

// The file of this name.
pub fn open(rt: &HostRuntime, path: String) -> Result<File, Failure>
    ensures { IfErr result (λ e. (error : _) × (e ≡ Failure.Open path error)) }
{
    fs::open(rt, path.as_str()).map_err(|error| Failure::Open(path, error))
}
