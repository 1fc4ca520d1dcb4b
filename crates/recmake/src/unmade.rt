// Why no recording is made of a text.
use crate::making::RECORDS;
use anyhow::anyhow;
use cli::Failure;
use notation::Misread;
use std::alloc::{AllocError, AllocFailed};

// Why no recording is made. Lines are numbered from 1.
#[derive(Debug, Drop)]
pub(crate) enum Unmade {
    // This line is no event.
    Line { number: usize, why: Misread },
    // The event of this line is one too many.
    TooMany { number: usize },
    Memory,
}

impl From<AllocError> for Unmade {
    ghost use Rattle.std.specs.Prelude.{◌≡◌};
    ghost use Rattle.recmake.specs.declared.unmade.Unmade.TheVariants.{Memory};

    ghost from_gives = { λ _ why. why ≡ Memory };

    fn from(_error: AllocError) -> Unmade {
        Unmade::Memory
    }
}

impl<T: Drop> From<AllocFailed<T>> for Unmade {
    ghost use Rattle.std.specs.Prelude.{◌≡◌};
    ghost use Rattle.recmake.specs.declared.unmade.Unmade.TheVariants.{Memory};

    ghost from_gives = { λ _ why. why ≡ Memory };

    fn from(_error: AllocFailed<T>) -> Unmade {
        Unmade::Memory
    }
}

impl From<Unmade> for Failure {
    ghost use Rattle.recmake.specs.Failing.{Tells};

    ghost from_gives = { Tells };

    fn from(why: Unmade) -> Failure {
        match why {
            Unmade::Line { number, why } => Failure::Fault(anyhow!("line {number}: {why}")),
            Unmade::TooMany { number } => {
                Failure::Fault(anyhow!("line {number}: {RECORDS} records are made already"))
            }
            Unmade::Memory => Failure::from(AllocError),
        }
    }
}
