// Why a program ends before it is done, and the status that it ends with.
ghost use Rattle.std.specs.Prelude.{◌≡◌, true};
ghost use Rattle.cli.specs.Statuses.{IsFailureOf, IsTrouble, is_status, status_of};
ghost use Rattle.cli.specs.declared.failure.Failure.TheVariants.{Words};

use std::alloc::{AllocError, AllocFailed};
use std::io;
use std::io::ErrorKind;

/// The status of a program whose input has a fault, or goes on past the limit of records.
pub const FAULTY: u8 = 1;

/// Why a program ends before it has done all that it was asked for.
#[derive(Debug, Drop)]
pub enum Failure {
    /// The input has a fault, or goes on past the limit of records: what is said of it.
    Fault(anyhow::Error),
    /// Reading, writing or memory failed: what is said of it.
    Trouble(anyhow::Error),
    /// Nobody reads the output any more. Nothing is said.
    Closed,
    /// The words were mistaken, or asked for the help or the version: what `clap` says.
    Words(clap::Error),
}

impl From<io::Error> for Failure {
    ghost from_gives = { IsFailureOf };

    fn from(error: io::Error) -> Failure {
        if error.kind() == ErrorKind::BrokenPipe {
            Failure::Closed
        } else {
            Failure::Trouble(anyhow::Error::from(error))
        }
    }
}

impl From<AllocError> for Failure {
    ghost from_gives = { λ _ failure. IsTrouble failure };

    fn from(error: AllocError) -> Failure {
        Failure::Trouble(anyhow::Error::from(error))
    }
}

impl<T: Drop> From<AllocFailed<T>> for Failure {
    ghost from_gives = { λ _ failure. IsTrouble failure };

    fn from(error: AllocFailed<T>) -> Failure {
        Failure::from(AllocError::from(error))
    }
}

impl From<clap::Error> for Failure {
    ghost from_gives = { λ error failure. failure ≡ Words error };

    fn from(error: clap::Error) -> Failure {
        Failure::Words(error)
    }
}

/// The status that a program ends with: 0 where all is good, help and version among it, and where the output was closed;
/// `faulty` where the input has a fault, `FAULTY` in all programs; 2 for mistaken words, and where reading, writing or memory failed.
pub fn status(faulty: u8, outcome: &Result<(), Failure>) -> u8
    ensures is { result ≡ status_of faulty outcome.now }
    ensures known { is_status faulty result ≡ true }
{
    match outcome {
        Ok(()) | Err(Failure::Closed) => 0,
        Err(Failure::Fault(_)) => faulty,
        Err(Failure::Trouble(_)) => 2,
        Err(Failure::Words(error)) => { if error.use_stderr() { 2 } else { 0 } }
    }
}
