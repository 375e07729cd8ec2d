// How a program ends.
ghost use Rattle.std.specs.Prelude.{◌≡◌};
ghost use Rattle.std.specs.Process.{exit_status};
ghost use Rattle.cli.specs.Endings.{status_of};

use std::fmt::Display;
use std::io::Eprint;
use std::process::ExitCode;

// Prints an error on standard error, after the program's name, and tells the status that the program ends with. A failed print is ignored.
pub fn report<E: Display + Drop>(
    rt: &impl Eprint,
    program: &str,
    outcome: Result<(), E>,
) -> ExitCode
    ensures { exit_status result ≡ status_of outcome }
{
    match outcome {
        Ok(()) => ExitCode::SUCCESS,
        Err(error) => {
            let _ = eprintln!(rt; "{program}: {error}");
            ExitCode::FAILURE
        }
    }
}
