//! The chooser that pays the largest debt.
#![tactic(auto)]

ghost use Rattle.std.specs.Prelude.{◌≡◌, ◌≤◌, pos, ◌*ℤ◌, unsigned_abs};
ghost use Rattle.keys.specs.Kinds.{debt};
ghost use Rattle.keys.specs.Places.{key_at};
ghost use Rattle.tariff.specs.Tariff.{link};
ghost use Rattle.chooser.specs.Offers.{offered_at, lag_bound};
ghost use Rattle.largest_debt.specs.Largest.{debt_key, largest_debt, PicksLargest};
ghost use Rattle.largest_debt.specs.Laws.{largest_is_offered};

use chooser::{Chooser, Entry, ListKind, Offer, PLACES};
use keys::{Debt, least};
use std::array;
use std::cmp::Reverse;

/// Picks the offered place with the greatest lag / rate, the lower one on a tie, whichever list is
/// asked for. It holds nothing: the offer says all that it goes by, and tellings change nothing.
#[derive(Clone, Copy, PartialEq, Eq, Debug, Default)]
pub struct LargestDebt;

impl LargestDebt {
    ghost use Rattle.chooser.specs.Meaning.{meant};
    ghost use Rattle.largest_debt.specs.Meaning.{largest_debt_meaning};

    /// The one there is.
    pub fn new() -> LargestDebt
        ensures means { largest_debt_meaning ≡ meant ⟦<LargestDebt as Chooser>⟧ }
    {
        LargestDebt
    }
}

#[tactic(auto, using(crate::proofs::Debts::product_fits))]
fn debt_of(entry: Entry) -> Debt
    requires near { unsigned_abs entry.lag ≤ lag_bound }
    requires price { entry.price ≤ link }
    ensures { result ≡ debt (entry.lag *ℤ pos entry.price) }
{
    Debt(Reverse(entry.lag * i64::from(entry.price)))
}

// The debt of a place, if it is offered.
#[tactic(auto, using(chooser::proofs::Sound::nobody_past))]
fn debt_at(offer: &Offer, place: usize) -> Option<Debt>
    ensures { result ≡ key_at (offered_at offer.now.entries) (debt_key offer.now.entries) place }
{
    let entry = offer.at(place)?;
    let debt = debt_of(entry);
    entry.offered.then_some(debt)
}

impl Chooser for LargestDebt {
    ghost pick = { λ c list o. largest_debt o.entries };

    ghost after_served = { λ c list place length price. c };

    ghost after_joined = { λ c list place o. c };

    ghost after_cleared = { λ c place. c };

    ghost picks = { λ c list o. largest_is_offered o.entries o.ok };

    fn ask(&self, list: ListKind, offer: &Offer) -> Option<usize>
        ensures value { result ≡ largest_debt offer.now.entries }
        ensures largest { PicksLargest offer.now.entries result }
    {
        let debts: [Option<Debt>; PLACES] = array::from_fn(|place| debt_at(offer, place));
        least(&debts)
    }

    fn served(&mut self, list: ListKind, place: usize, length: u16, price: u32) {}

    fn joined(&mut self, list: ListKind, place: usize, offer: &Offer) {}

    fn cleared(&mut self, place: usize) {}
}
