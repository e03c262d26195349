// How a program ends.
ghost use Rattle.std.specs.Prelude.{◌≡◌, MatchResult};
ghost use Rattle.std.specs.Process.{exit_status};

use std::fmt::Display;
use std::process::ExitCode;

// The status of the program of this name; what kept it from its end is said on standard error.
pub fn status<E: Display + Drop>(rt: &HostRuntime, program: &str, end: Result<(), E>) -> ExitCode
    ensures { MatchResult end (λ _. exit_status result ≡ 0) (λ _. exit_status result ≡ 1) }
{
    match end {
        Ok(()) => ExitCode::SUCCESS,
        Err(failure) => {
            let _ = eprintln!(rt; "{program}: {failure}");
            ExitCode::FAILURE
        }
    }
}
