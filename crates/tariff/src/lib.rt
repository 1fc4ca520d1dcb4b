// The tariff: which rates may be booked, and at what price.
#![tactic(auto)]

mod rate;
mod table;

pub use rate::Rate;
pub use table::{listed, rates};

/// How many units the link is divided into.
pub const LINK: u32 = 720_720;

/// How many rates the tariff has.
pub const RATES: usize = 240;

#[cfg(test)]
mod tests {
    use super::*;
    use answer::Refusal;
    use std::test::Fail;

    #[test]
    fn prices(rt: HostRuntime) -> Result<(), Fail> {
        for (units, price) in [(1, 720720), (7, 102960), (360360, 2), (720720, 1)] {
            let rate = Rate::try_from(units)?;
            assert_eq!(rt; (rate.units(), rate.price()), (units, price));
        }
        Ok(())
    }

    #[test]
    fn refused(rt: HostRuntime) {
        for units in [0, 17, 720719, 720721, 1441440, u32::MAX] {
            assert_eq!(rt; Rate::try_from(units).err().map(Refusal::number), Some(8));
        }
    }

    // Every number up to twice the link, against plain division.
    #[test]
    fn listed_are_the_divisors(rt: HostRuntime) {
        for units in 1..1441441u32 {
            assert_eq!(rt; listed(units), LINK % units == 0);
        }
        assert_eq!(rt; listed(0), false);
    }
}
