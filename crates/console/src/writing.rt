// Writing the output.
ghost use Rattle.std.specs.Prelude.{◌≡◌, IfErr};

use crate::failure::Failure;
use std::io::Write;

pub fn write(rt: &HostRuntime, bytes: &[u8]) -> Result<(), Failure>
    ensures { IfErr result (λ e. (error : _) × (e ≡ Failure.Output error)) }
{
    rt.stdout().write_all(bytes).map_err(Failure::Output)
}
