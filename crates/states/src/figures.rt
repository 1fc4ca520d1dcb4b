// What a chooser counts of a place.
ghost use Rattle.std.specs.Prelude.{◌≡◌, ℕ, unwrap_or};
ghost use Rattle.chooser.specs.declared.entry.ListKind.{ListKind as TheList};
ghost use Rattle.least_served.specs.Served.{place_count};

use chooser::{Chooser, ListKind};
use largest_debt::LargestDebt;
use least_served::LeastServed;

/// A chooser that can be asked what it counts of a place, one number for each list.
pub trait Figures: Chooser {
    ghost figure: { Self → TheList → ℕ → ℕ };

    /// The count of a place in a list; 0 where it has none.
    fn figure(&self, list: ListKind, place: u8) -> u64
        ensures { result ≡ figure self.now list place };
}

/// The service that a place has had from a list.
impl Figures for LeastServed {
    ghost figure = { λ c list place. unwrap_or (place_count c list place) 0 };

    fn figure(&self, list: ListKind, place: u8) -> u64 {
        self.count(list, usize::from(place)).unwrap_or(0)
    }
}

/// It counts nothing.
impl Figures for LargestDebt {
    ghost figure = { λ _ _ _. 0 };

    fn figure(&self, _list: ListKind, _place: u8) -> u64 {
        0
    }
}
