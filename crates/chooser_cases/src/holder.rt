// What holds a chooser and knows no more of it than every chooser shows.
use chooser::{Chooser, ListKind, Offer, PLACES};

/// Holds a chooser, and knows no more of it than every chooser shows.
#[derive(Drop)]
pub struct Holder<C: Chooser> {
    chooser: C,
}

impl<C: Chooser> Holder<C> {
    ghost use Rattle.std.specs.Prelude.{◌≡◌};
    ghost use Rattle.chooser.specs.Offers.{PicksOffered};
    ghost use Rattle.chooser_cases.specs.Told.{served_pick, told_below};

    /// Holds this chooser as it is.
    pub fn new(chooser: C) -> Holder<C>
        ensures { result.chooser ≡ chooser }
    {
        Holder { chooser }
    }

    /// Who would be picked.
    pub fn peek(&self, list: ListKind, offer: &Offer) -> Option<usize>
        ensures value { result ≡ C.pick self.now.chooser list offer.now }
        ensures offered { PicksOffered offer.now.entries result }
    {
        self.chooser.ask(list, offer)
    }

    /// Serves who is picked, at its price, and says who that was.
    pub fn serve(&mut self, list: ListKind, offer: &Offer, length: u16) -> Option<usize>
        ensures value { result ≡ C.pick self.old.chooser list offer.now }
        ensures after { self.new.chooser
            ≡ served_pick C.after_served self.old.chooser list offer.now.entries length result }
    {
        let place = self.peek(list, offer)?;
        // always there: who is picked is offered
        let entry = offer.at(place)?;
        self.chooser.served(list, place, length, entry.price);
        Some(place)
    }

    /// Every place joins, in ascending order.
    pub fn join_all(&mut self, list: ListKind, offer: &Offer)
        ensures { self.new.chooser ≡ told_below (λ c place. C.after_joined c list place offer.now)
            self.old.chooser PLACES }
    {
        for place in 0..PLACES {
            self.chooser.joined(list, place, offer);
        }
    }

    /// A place is opened.
    pub fn clear(&mut self, place: usize)
        ensures { self.new.chooser ≡ C.after_cleared self.old.chooser place }
    {
        self.chooser.cleared(place);
    }
}
