// What the choosers pick, and what tellings do to their counts.
use super::{Holder, without};
use chooser::{Chooser, Entry, ListKind, Offer, PLACES};
use keys::{Count, Debt, VirtualTime, least};
use largest_debt::LargestDebt;
use least_served::LeastServed;
use std::array;
use std::cmp::Reverse;
use std::process::Abort;
use std::test::Fail;
use tariff::Rate;

// An offer of these places, each with its lag and its rate.
fn offering(places: &[(usize, i64, u32)]) -> Result<Offer, Fail> {
    let mut offer = Offer::none();
    for &(place, lag, units) in places {
        offer.put(place, lag, Rate::try_from(units)?);
    }
    Ok(offer)
}

fn full() -> Result<Offer, Fail> {
    let places: [_; PLACES] = array::from_fn(|place| (place, 1, 1));
    offering(&places)
}

// What every chooser picks that has been told nothing.
fn picks_the_lowest<C: Chooser + Drop>(rt: &impl Abort, chooser: C) -> Result<(), Fail> {
    let mut holder = Holder::new(chooser);
    assert_eq!(rt; holder.peek(ListKind::Credit, &Offer::none()), None);
    assert_eq!(rt; holder.peek(ListKind::Extra, &Offer::none()), None);
    assert_eq!(rt; holder.serve(ListKind::Extra, &Offer::none(), 100), None);
    let all = full()?;
    assert_eq!(rt; holder.peek(ListKind::Credit, &all), Some(0));
    assert_eq!(rt; holder.peek(ListKind::Extra, &without(&all, 0)), Some(1));
    let last = offering(&[(63, 5, 7)])?;
    assert_eq!(rt; holder.peek(ListKind::Credit, &last), Some(63));
    assert_eq!(rt; holder.peek(ListKind::Credit, &without(&last, 63)), None);
    assert_eq!(rt;
        holder.peek(ListKind::Credit, &without(&last, 64)),
        Some(63)
    );
    Ok(())
}

#[test]
fn the_least_of_each_kind(rt: HostRuntime) {
    let times = [
        None,
        Some(VirtualTime(7)),
        Some(VirtualTime(5)),
        Some(VirtualTime(5)),
    ];
    assert_eq!(rt; least(&times), Some(2));
    let debts = [
        Some(Debt(Reverse(-3))),
        None,
        Some(Debt(Reverse(-2))),
        Some(Debt(Reverse(-2))),
    ];
    assert_eq!(rt; least(&debts), Some(2));
    let counts = [Some(Count(0)), None, Some(Count(0))];
    assert_eq!(rt; least(&counts), Some(0));
    let nobody: [Option<Count>; 2] = [None, None];
    assert_eq!(rt; least(&nobody), None);
    assert_eq!(rt; least(&counts[1..2]), None);
}

#[test]
fn every_chooser_picks_the_lowest(rt: HostRuntime) -> Result<(), Fail> {
    picks_the_lowest(&rt, LargestDebt)?;
    picks_the_lowest(&rt, LeastServed::new())
}

#[test]
fn offers_take_what_is_sound(rt: HostRuntime) -> Result<(), Fail> {
    let mut offer = Offer::none();
    offer.put(64, 1, Rate::try_from(1)?);
    offer.put(3, 3_072_000_000_001, Rate::try_from(1)?);
    offer.put(3, -3_072_000_000_001, Rate::try_from(1)?);
    for place in 0..PLACES {
        assert!(rt; !offer.offers(place));
    }
    offer.put(3, -3_072_000_000_000, Rate::try_from(7)?);
    assert!(rt; offer.offers(3) && !offer.offers(64) && !offer.offers(67));
    let entry = Entry {
        offered: true,
        lag: -3_072_000_000_000,
        rate: 7,
        price: 102_960,
    };
    assert_eq!(rt; offer.at(3), Some(entry));
    let other = Entry {
        offered: false,
        lag: 0,
        rate: 1,
        price: 720_720,
    };
    assert_eq!(rt; offer.at(4), Some(other));
    assert_eq!(rt; offer.at(64), None);
    Ok(())
}

#[test]
fn equal_debts_tie(rt: HostRuntime) -> Result<(), Fail> {
    assert_eq!(rt;
        LargestDebt.ask(ListKind::Credit, &offering(&[(3, 10, 20), (5, 9, 18)])?),
        Some(3)
    );
    assert_eq!(rt;
        LargestDebt.ask(ListKind::Credit, &offering(&[(3, 9, 18), (5, 10, 20)])?),
        Some(3)
    );
    // a byte more is a larger debt
    assert_eq!(rt;
        LargestDebt.ask(ListKind::Credit, &offering(&[(3, 9, 18), (5, 11, 20)])?),
        Some(5)
    );
    Ok(())
}

#[test]
fn a_lag_weighs_more_at_a_lower_rate(rt: HostRuntime) -> Result<(), Fail> {
    assert_eq!(rt;
        LargestDebt.ask(ListKind::Credit, &offering(&[(2, 10, 20), (40, 10, 18)])?),
        Some(40)
    );
    assert_eq!(rt;
        LargestDebt.ask(ListKind::Extra, &offering(&[(2, -10, 20), (40, -10, 18)])?),
        Some(2)
    );
    assert_eq!(rt;
        LargestDebt.ask(ListKind::Extra, &offering(&[(2, -10, 20), (40, 0, 18)])?),
        Some(40)
    );
    let far = offering(&[(0, -3_072_000_000_000, 1), (63, 3_072_000_000_000, 1)])?;
    assert_eq!(rt; LargestDebt.ask(ListKind::Credit, &far), Some(63));
    Ok(())
}

#[test]
fn largest_debt_ignores_tellings(rt: HostRuntime) -> Result<(), Fail> {
    let offer = offering(&[(3, 10, 20), (5, 9, 18)])?;
    let mut debt = LargestDebt;
    debt.served(ListKind::Credit, 3, 1_536, 36_036);
    debt.joined(ListKind::Credit, 5, &offer);
    debt.cleared(3);
    assert_eq!(rt; debt.ask(ListKind::Credit, &offer), Some(3));
    Ok(())
}

#[test]
fn servings_count_by_list(rt: HostRuntime) -> Result<(), Fail> {
    let offer = offering(&[(3, 10, 20), (5, 9, 18)])?;
    let mut least = LeastServed::new();
    assert_eq!(rt; least.ask(ListKind::Credit, &offer), Some(3));
    least.served(ListKind::Credit, 3, 100, 36_036);
    assert_eq!(rt; least.count(ListKind::Credit, 3), Some(3_603_600));
    assert_eq!(rt; least.count(ListKind::Extra, 3), Some(0));
    assert_eq!(rt; least.ask(ListKind::Credit, &offer), Some(5));
    assert_eq!(rt; least.ask(ListKind::Extra, &offer), Some(3));
    // 90 bytes at 40,040 are as much service as 100 at 36,036
    least.served(ListKind::Credit, 5, 90, 40_040);
    assert_eq!(rt; least.count(ListKind::Credit, 5), Some(3_603_600));
    assert_eq!(rt; least.ask(ListKind::Credit, &offer), Some(3));
    least.served(ListKind::Credit, 3, 0, 36_036);
    assert_eq!(rt; least.ask(ListKind::Credit, &offer), Some(3));
    assert_eq!(rt; least.count(ListKind::Credit, 64), None);
    Ok(())
}

#[test]
fn tellings_out_of_range_do_nothing(rt: HostRuntime) -> Result<(), Fail> {
    let offer = offering(&[(3, 10, 20), (5, 9, 18)])?;
    let mut least = LeastServed::new();
    least.served(ListKind::Credit, 3, 100, 36_036);
    least.served(ListKind::Credit, 5, 100, 40_040);
    least.served(ListKind::Credit, 64, 100, 36_036);
    least.served(ListKind::Credit, 4, 1_537, 36_036);
    least.served(ListKind::Credit, 4, 100, 17);
    least.served(ListKind::Credit, 4, 100, 0);
    least.joined(ListKind::Credit, 64, &offer);
    least.cleared(64);
    for place in 0..PLACES {
        assert_eq!(rt; least.count(ListKind::Extra, place), Some(0));
    }
    assert_eq!(rt; least.count(ListKind::Credit, 3), Some(3_603_600));
    assert_eq!(rt; least.count(ListKind::Credit, 4), Some(0));
    assert_eq!(rt; least.count(ListKind::Credit, 5), Some(4_004_000));
    least.served(ListKind::Credit, 4, 1_536, 720_720);
    assert_eq!(rt; least.count(ListKind::Credit, 4), Some(1_107_025_920));
    Ok(())
}

#[test]
fn a_joiner_is_raised_to_the_smallest(rt: HostRuntime) -> Result<(), Fail> {
    let offer = offering(&[(3, 10, 20), (5, 9, 18)])?;
    let mut least = LeastServed::new();
    least.served(ListKind::Credit, 3, 100, 2);
    least.served(ListKind::Credit, 5, 100, 3);
    least.served(ListKind::Credit, 7, 100, 4);
    least.joined(ListKind::Credit, 9, &Offer::none());
    assert_eq!(rt; least.count(ListKind::Credit, 9), Some(0));
    least.joined(ListKind::Credit, 9, &offer);
    assert_eq!(rt; least.count(ListKind::Credit, 9), Some(200));
    assert_eq!(rt; least.count(ListKind::Extra, 9), Some(0));
    // a count that is larger already stays
    least.joined(ListKind::Credit, 7, &offer);
    assert_eq!(rt; least.count(ListKind::Credit, 7), Some(400));
    // an offer that holds the joiner itself takes its own count into the minimum
    least.joined(ListKind::Credit, 5, &offer);
    assert_eq!(rt; least.count(ListKind::Credit, 5), Some(300));
    least.served(ListKind::Extra, 5, 10, 3);
    least.cleared(5);
    assert_eq!(rt; least.count(ListKind::Credit, 5), Some(0));
    assert_eq!(rt; least.count(ListKind::Extra, 5), Some(0));
    assert_eq!(rt; least.count(ListKind::Credit, 3), Some(200));
    Ok(())
}

#[test]
fn a_holder_serves_in_turn(rt: HostRuntime) -> Result<(), Fail> {
    let offer = offering(&[(3, 10, 20), (5, 9, 18)])?;
    let mut holder = Holder::new(LeastServed::new());
    assert_eq!(rt; holder.serve(ListKind::Credit, &offer, 100), Some(3));
    assert_eq!(rt; holder.serve(ListKind::Credit, &offer, 100), Some(5));
    assert_eq!(rt; holder.serve(ListKind::Credit, &offer, 100), Some(3));
    assert_eq!(rt; holder.serve(ListKind::Extra, &offer, 100), Some(3));
    assert_eq!(rt; holder.peek(ListKind::Credit, &offer), Some(5));
    // all others start where the least served stands, and the lowest of them goes first
    holder.join_all(ListKind::Credit, &offer);
    assert_eq!(rt; holder.peek(ListKind::Credit, &full()?), Some(0));
    holder.clear(7);
    assert_eq!(rt; holder.peek(ListKind::Credit, &full()?), Some(7));
    Ok(())
}
