// Which sheets are asked for.
ghost use Rattle.std.specs.Prelude.{codes};
ghost use Rattle.clap.specs.Words.{found_of, one_text};
ghost use Rattle.joblags.specs.Words.{AskedFor};

use clap::ArgMatches;
use std::num::NonZeroU64;

// The option, and its name among what was found.
pub(crate) const EVERY: &str = "every";

// After how many records a sheet is due, again and again; none for the end alone.
pub(crate) fn every(matches: &ArgMatches<'_>) -> Option<NonZeroU64>
    ensures { AskedFor (one_text (found_of matches.now) (codes "every")) result }
{
    matches.get_one::<u64>(EVERY).and_then(NonZeroU64::new)
}
