//! Who gets a turn that its owner cannot use: what a chooser is, and what it is shown and told.
#![tactic(auto)]

ghost use Rattle.std.specs.Prelude.{◌≡◌, ℕ, Option as Maybe};
ghost use Rattle.chooser.specs.declared.entry.ListKind.{ListKind as TheList};
ghost use Rattle.chooser.specs.declared.offer.Offer.{Offer as TheOffer};
ghost use Rattle.chooser.specs.Offers.{PicksOffered};

mod entry;
mod offer;
mod place;

pub use entry::{Entry, ListKind};
pub use offer::Offer;
pub use place::Place;

/// The places of a cell, numbered from 0.
pub const PLACES: usize = 64;

/// The bytes of the longest frame.
pub const LONGEST: u16 = 1_536;

/// The turns that a cell accepts.
pub const MOST_TURNS: u32 = 2_000_000_000;

/// Whoever answers whom it would pick now, and is told what happened.
///
/// A chooser has a meaning: for each list and each offer the place that it would pick now, if any,
/// and what it becomes by each telling. The meaning may depend on all that it was told. Its calls
/// give that meaning and nothing else, and it refuses nothing.
///
/// It shows one law: in every state, and of every offer, its pick is an offered place if there is
/// one, and none otherwise.
///
/// Places are numbers and no [`Place`]: it may be told of one above 63, and says itself what that
/// does. Lengths are in bytes; a price is what one byte costs in virtual time.
pub trait Chooser {
    ghost pick: { Self → TheList → TheOffer → Maybe ℕ };

    // list, place, length, price
    ghost after_served: { Self → TheList → ℕ → ℕ → ℕ → Self };

    // list, place, the offer of those who were in the list and stayed
    ghost after_joined: { Self → TheList → ℕ → TheOffer → Self };

    // place
    ghost after_cleared: { Self → ℕ → Self };

    /// The place that it would pick now from a list, of those whom the offer offers.
    fn ask(&self, list: ListKind, offer: &Offer) -> Option<usize>
        ensures { result ≡ pick self.now list offer.now };

    /// Told that a place sent a frame of a length from a list, at the place's price.
    fn served(&mut self, list: ListKind, place: usize, length: u16, price: u32)
        ensures { self.new ≡ after_served self.old list place length price };

    /// Told that a place joined a list; the offer has those who were in it and stayed.
    fn joined(&mut self, list: ListKind, place: usize, offer: &Offer)
        ensures { self.new ≡ after_joined self.old list place offer.now };

    /// Told that a place was opened.
    fn cleared(&mut self, place: usize)
        ensures { self.new ≡ after_cleared self.old place };

    ghost picks: { (c : Self) (l : TheList) (o : TheOffer) → PicksOffered o.entries (pick c l o) };
}
