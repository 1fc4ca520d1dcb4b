// A rate of the tariff with its price.
ghost use Rattle.std.specs.Prelude.{◌≡◌, ◌*◌};
ghost use Rattle.tariff.specs.Tariff.{link};

use crate::LINK;
use crate::table::listed;
use answer::Refusal;

/// A rate of the tariff, in units of the link, and its price. Whoever holds one knows that rate times price is the link,
/// and need not check it.
#[derive(Clone, Copy, PartialEq, Eq, Debug)]
pub struct Rate {
    pub(crate) units: u32,
    pub(crate) price: u32,
    ghost exact: { units * price ≡ link },
}

impl Rate {
    /// How many units of the link are booked, 1 to 720,720.
    pub fn units(&self) -> u32
        ensures { result ≡ self.now.units }
    {
        self.units
    }

    /// What a byte costs in virtual time.
    pub fn price(&self) -> u32
        ensures { result ≡ self.now.price }
    {
        self.price
    }
}

/// The rate of so many units, or `RateNotInTariff` where the tariff has none.
impl TryFrom<u32> for Rate {
    ghost use Rattle.tariff.specs.Booking.{booking, booking_as};

    type Error = Refusal;

    ghost try_from_gives = { λ units r. booking_as r ≡ booking units };

    fn try_from(units: u32) -> Result<Rate, Refusal> {
        if !listed(units) {
            return Err(Refusal::RateNotInTariff);
        }
        Ok(Rate {
            units,
            price: LINK / units,
        })
    }
}
