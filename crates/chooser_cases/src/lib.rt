//! The choosers on cases, and code that is written for every chooser.
#![tactic(auto)]

ghost use Rattle.std.specs.Prelude.{◌≡◌, slice_set};
ghost use Rattle.chooser.specs.Offers.{unoffered};

use chooser::{Entry, Offer, PLACES};

mod holder;
#[cfg(test)]
mod tests;

pub use holder::Holder;

/// An offer without one place; a number that is no place's changes nothing.
#[tactic(auto, using(chooser::proofs::Sound::sound_set))]
pub fn without(offer: &Offer, place: usize) -> Offer
    ensures { result.entries ≡ slice_set offer.now.entries place unoffered }
{
    if place >= PLACES {
        return *offer;
    }
    let mut entries = offer.entries;
    entries[place] = Entry::unoffered();
    Offer { entries }
}
