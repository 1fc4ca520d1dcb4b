// The two lists, and what an offer says of one place.
use tariff::{LINK, Rate};

/// The list that a pick is made from.
#[derive(Clone, Copy, PartialEq, Eq, Debug)]
pub enum ListKind {
    /// Sessions that are able to send and lag.
    Credit,
    /// Sessions that are able to send and do not lag.
    Extra,
}

/// What an offer says of one place. One that is not offered has lag 0, rate 1 and the price of
/// rate 1.
#[derive(Clone, Copy, PartialEq, Eq, Debug)]
pub struct Entry {
    /// Whether the place may be picked.
    pub offered: bool,
    /// The bytes that its session is owed; below 0, what it has had too much.
    pub lag: i64,
    /// The booked part of the link.
    pub rate: u32,
    /// What a byte costs in virtual time.
    pub price: u32,
}

impl Entry {
    ghost use Rattle.std.specs.Prelude.{◌≡◌};
    ghost use Rattle.chooser.specs.Offers.{offered, unoffered};

    /// The entry of a place that is offered.
    pub fn offered(lag: i64, rate: Rate) -> Entry
        ensures { result ≡ offered lag rate.units rate.price }
    {
        Entry {
            offered: true,
            lag,
            rate: rate.units(),
            price: rate.price(),
        }
    }

    /// The entry of a place that is not offered.
    pub fn unoffered() -> Entry
        ensures { result ≡ unoffered }
    {
        Entry {
            offered: false,
            lag: 0,
            rate: 1,
            price: LINK,
        }
    }
}
