// What a chooser is offered: an entry for each place.
ghost use Rattle.std.specs.Prelude.{◌≡◌, true, nat_le, unsigned_abs};
ghost use Rattle.chooser.specs.Offers.{sound, lag_bound};

use super::entry::Entry;
use super::{LONGEST, MOST_TURNS, PLACES};
use tariff::Rate;

// How far a lag may be from 0.
const LAG_BOUND: i64 = LONGEST as i64 * MOST_TURNS as i64;

/// What a chooser is offered: an entry for each place. An offered one has a booked rate, its price,
/// and a lag of at most 3,072,000,000,000 bytes either way.
///
/// Whoever has the entries may make an offer of them, on showing that they are sound.
#[derive(Clone, Copy, PartialEq, Eq, Debug)]
pub struct Offer {
    /// One for each place, from 0 on.
    pub entries: [Entry; PLACES],
    ghost ok: { sound entries ≡ true },
}

impl Offer {
    ghost use Rattle.chooser.specs.Offers.{nobody, entry_at, offered_at, with_offered};

    /// The offer of nobody.
    #[tactic(auto, using(crate::proofs::Sound::sound_nobody))]
    pub fn none() -> Offer
        ensures { result.entries ≡ nobody }
    {
        Offer {
            entries: [Entry::unoffered(); PLACES],
        }
    }

    /// The entry of a place, if there is such a place.
    pub fn at(&self, place: usize) -> Option<Entry>
        ensures { result ≡ entry_at self.now.entries place }
    {
        self.entries.get(place).copied()
    }

    /// Whether a place is offered; of a number that is no place's it is not.
    pub fn offers(&self, place: usize) -> bool
        ensures { result ≡ offered_at self.now.entries place }
    {
        self.at(place).is_some_and(|entry| entry.offered)
    }

    /// Offers a place. A number that is no place's and a lag past the bound change nothing.
    #[tactic(auto, using(crate::proofs::Sound::offered_sound, crate::proofs::Sound::sound_set))]
    pub fn put(&mut self, place: usize, lag: i64, rate: Rate)
        ensures { self.new.entries ≡ with_offered self.old.entries place lag rate.units rate.price }
    {
        if place < PLACES && within(lag) {
            self.entries[place] = Entry::offered(lag, rate);
        }
    }
}

// Whether a lag is one that an offer may have.
fn within(lag: i64) -> bool
    ensures { result ≡ nat_le (unsigned_abs lag) lag_bound }
{
    lag >= -LAG_BOUND && lag <= LAG_BOUND
}
