// How much service each place has had from each list, and the pick by it.
use chooser::{Chooser, LONGEST, ListKind, Offer, PLACES, Place};
use keys::{Count, least};
use std::array;
use tariff::listed;

// A count stops here.
const STOP: u64 = i64::MAX as u64;

/// Picks the offered place that it has served least from the list that is asked for, in bytes times
/// price, the lower one on a tie.
///
/// Serving adds to the count of the list; a place that joins is raised to the smallest count
/// offered; a place that is opened begins at 0. A place above 63, a length above 1,536 and a price
/// that no rate has are not counted.
// Two rows of counts and no row of pairs: so they lie in C's memory.
#[repr(C)]
#[derive(Clone, Copy, PartialEq, Eq, Debug)]
pub struct LeastServed {
    credit: [u64; PLACES],
    extra: [u64; PLACES],
}

impl LeastServed {
    ghost use Rattle.std.specs.Prelude.{◌≡◌, ◌+◌};
    ghost use Rattle.keys.specs.Places.{key_at};
    ghost use Rattle.chooser.specs.Offers.{offered_at};
    ghost use Rattle.chooser.specs.Meaning.{meant};
    ghost use Rattle.least_served.specs.Served.{unserved, counts, count_at, place_count};
    ghost use Rattle.least_served.specs.Served.{count_key, least_served, PicksLeastServed};
    ghost use Rattle.least_served.specs.Served.{with_count, stopped, joined_count};
    ghost use Rattle.least_served.specs.Meaning.{least_served_meaning};
    ghost use Rattle.least_served.specs.Stops.{CountsStayLow, NeverStops};

    /// Nobody has been served. Whatever it is told from here on, 2,000,000,000 servings bring no
    /// count to where counts stop.
    #[tactic(auto, using(crate::proofs::Low::counts_stay_low, crate::proofs::Low::never_stops))]
    pub fn new() -> LeastServed
        ensures value { result ≡ unserved }
        ensures means { least_served_meaning ≡ meant ⟦<LeastServed as Chooser>⟧ }
        ensures low { CountsStayLow }
        ensures exact { NeverStops }
    {
        LeastServed {
            credit: [0; PLACES],
            extra: [0; PLACES],
        }
    }

    /// The service that a place has had from a list, in bytes times price; `None` where there is no
    /// such place.
    pub fn count(&self, list: ListKind, place: usize) -> Option<u64>
        ensures { result ≡ place_count self.now list place }
    {
        Some(self.at(list, Place::new(place)?))
    }

    fn counts(&self, list: ListKind) -> &[u64; PLACES]
        ensures { result.now ≡ counts self.now list }
    {
        match list {
            ListKind::Credit => &self.credit,
            ListKind::Extra => &self.extra,
        }
    }

    fn at(&self, list: ListKind, place: Place) -> u64
        ensures { result ≡ count_at self.now list place.number }
    {
        self.counts(list)[place.index()]
    }

    fn set(&mut self, list: ListKind, place: Place, count: u64)
        ensures { self.new ≡ with_count self.old list place.number count }
    {
        match list {
            ListKind::Credit => self.credit[place.index()] = count,
            ListKind::Extra => self.extra[place.index()] = count,
        }
    }

    fn add(&mut self, list: ListKind, place: Place, more: u64)
        ensures { self.new ≡ with_count self.old list place.number
            (stopped (count_at self.old list place.number + more)) }
    {
        let sum = self.at(list, place).saturating_add(more).min(STOP);
        self.set(list, place, sum);
    }

    // The key of a place, if it is offered.
    #[tactic(auto, using(chooser::proofs::Sound::nobody_past))]
    fn key(&self, list: ListKind, offer: &Offer, place: usize) -> Option<Count>
        ensures { result ≡ key_at (offered_at offer.now.entries) (count_key self.now list) place }
    {
        let count = self.count(list, place)?;
        offer.offers(place).then_some(Count(count))
    }

    // The offered place with the smallest count of the list, the lower one on a tie.
    fn least(&self, list: ListKind, offer: &Offer) -> Option<usize>
        ensures value { result ≡ least_served self.now list offer.now.entries }
        ensures least { PicksLeastServed self.now list offer.now.entries result }
    {
        let counts: [Option<Count>; PLACES] = array::from_fn(|place| self.key(list, offer, place));
        least(&counts)
    }

    // The count of a place that joins: its own, or the smallest offered if that is larger.
    fn joined_count(&self, list: ListKind, place: Place, offer: &Offer) -> u64
        ensures { result ≡ joined_count self.now list place.number offer.now.entries }
    {
        let own = self.at(list, place);
        let smallest = self
            .least(list, offer)
            .and_then(|first| self.count(list, first));
        smallest.map_or(own, |count| own.max(count))
    }
}

impl Default for LeastServed {
    ghost use Rattle.std.specs.Prelude.{◌≡◌};
    ghost use Rattle.least_served.specs.Served.{unserved};

    ghost is_default = { λ c. c ≡ unserved };

    fn default() -> LeastServed {
        LeastServed::new()
    }
}

impl Chooser for LeastServed {
    ghost use Rattle.std.specs.Prelude.{◌≡◌};
    ghost use Rattle.least_served.specs.Served.{least_served, PicksLeastServed, stopped};
    ghost use Rattle.least_served.specs.Served.{after_served as counts_after_served};
    ghost use Rattle.least_served.specs.Served.{after_joined as counts_after_joined};
    ghost use Rattle.least_served.specs.Served.{after_cleared as counts_after_cleared};
    ghost use Rattle.least_served.specs.Laws.{least_is_offered};

    ghost pick = { λ c list o. least_served c list o.entries };

    ghost after_served = { counts_after_served stopped };

    ghost after_joined = { λ c list place o. counts_after_joined c list place o.entries };

    ghost after_cleared = { counts_after_cleared };

    ghost picks = { λ c list o. least_is_offered c list o.entries o.ok };

    fn ask(&self, list: ListKind, offer: &Offer) -> Option<usize>
        ensures value { result ≡ least_served self.now list offer.now.entries }
        ensures least { PicksLeastServed self.now list offer.now.entries result }
    {
        self.least(list, offer)
    }

    fn served(&mut self, list: ListKind, place: usize, length: u16, price: u32) {
        let Some(place) = Place::new(place) else {
            return;
        };
        if length <= LONGEST && listed(price) {
            self.add(list, place, u64::from(length) * u64::from(price));
        }
    }

    fn joined(&mut self, list: ListKind, place: usize, offer: &Offer) {
        if let Some(place) = Place::new(place) {
            let count = self.joined_count(list, place, offer);
            self.set(list, place, count);
        }
    }

    fn cleared(&mut self, place: usize) {
        if let Some(place) = Place::new(place) {
            self.set(ListKind::Credit, place, 0);
            self.set(ListKind::Extra, place, 0);
        }
    }
}
