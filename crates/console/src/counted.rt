// What a chooser counts, for those that count.
ghost use Rattle.std.specs.Prelude.{◌≡◌, ℕ, Option as Maybe, None};
ghost use Rattle.chooser.specs.declared.entry.ListKind.{ListKind as TheList};
ghost use Rattle.least_served.specs.Served.{place_count};

use chooser::{Chooser, ListKind};
use largest_debt::LargestDebt;
use least_served::LeastServed;

/// A chooser that can be asked what it counts.
pub trait Counted: Chooser {
    // The service that it counts for a place in a list.
    ghost counts: { Self → TheList → ℕ → Maybe ℕ };

    /// The service that it counts for a place in a list, in bytes times price; none where it counts nothing, or has no such place.
    fn counted(&self, list: ListKind, place: usize) -> Option<u64>
        ensures { result ≡ counts self.now list place };
}

impl Counted for LeastServed {
    ghost counts = { place_count };

    fn counted(&self, list: ListKind, place: usize) -> Option<u64> {
        self.count(list, place)
    }
}

impl Counted for LargestDebt {
    ghost counts = { λ _ _ _. None };

    fn counted(&self, _list: ListKind, _place: usize) -> Option<u64> {
        None
    }
}
