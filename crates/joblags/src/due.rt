// When a sheet is due.
ghost use Rattle.std.specs.Prelude.{◌≡◌};
ghost use Rattle.joblags.specs.Sheets.{is_due};

use std::num::NonZeroU64;

// Whether a sheet is due after this record, however the recording goes on. Nothing is due before the first.
pub(crate) fn due(every: Option<NonZeroU64>, number: u64) -> bool
    ensures { result ≡ is_due every number }
{
    every.is_some_and(|every| number > 0 && number % every == 0)
}
