// Counts, and parts of them.
ghost use Rattle.std.specs.Prelude.{◌≡◌};
ghost use Rattle.summary.specs.Counting.{plus, tenths};

// A count with so many more; it stops at the largest number.
pub(crate) fn plus(count: u64, more: u64) -> u64
    ensures { result ≡ plus count more }
{
    count.saturating_add(more)
}

// The part of a whole in tenths of a percent, to the nearest.
pub(crate) fn tenths(part: u64, whole: u64) -> u128
    ensures { result ≡ tenths part whole }
{
    if whole == 0 {
        0
    } else {
        (2000 * u128::from(part) + u128::from(whole)) / (2 * u128::from(whole))
    }
}
