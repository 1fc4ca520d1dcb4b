// Calls, refusals and questions.
use super::picture::look;
use answer::Refusal;
use cell::{Cell, Standing};
use chooser::{Chooser, ListKind};
use least_served::LeastServed;
use queue::Frame;
use std::process::Abort;
use std::test::Fail;

fn made(keep: u8, chooser: LeastServed) -> Result<Cell<LeastServed>, Fail> {
    Cell::new(keep, chooser).map_err(|_| Fail::new("no cell"))
}

fn new() -> Result<Cell<LeastServed>, Fail> {
    made(2, LeastServed::new())
}

fn frame(tag: u32, length: u16) -> Frame {
    Frame { tag, length }
}

// A place with so many frames, tagged from 0, each of 100 bytes.
fn filled(cell: &mut Cell<LeastServed>, place: u8, frames: u32) -> Result<(), Fail> {
    for tag in 0..frames {
        cell.arrive(place, frame(tag, 100))?;
    }
    Ok(())
}

// A call that is refused, and leaves all that can be asked as it was.
// By number: that these refusals have the numbers of REFUSALS.md is tested by it too.
fn refused<T: Drop, F: FnOnce(&mut Cell<LeastServed>) -> Result<T, Refusal>>(
    rt: &impl Abort,
    cell: &mut Cell<LeastServed>,
    call: F,
    number: u8,
)
    requires { F.IsAlwaysCallable call }
{
    let before = look(cell);
    assert_eq!(rt; call(cell).err().map(Refusal::number), Some(number));
    assert_eq!(rt; look(cell), before);
}

#[test]
fn places_and_rates(rt: HostRuntime) -> Result<(), Fail> {
    let mut cell = new()?;
    cell.open(63, 7)?;
    let session = cell.session(63)?;
    assert_eq!(rt; session.rate, 7);
    assert_eq!(rt; session.price, 102_960);
    refused(&rt, &mut cell, |cell| cell.open(64, 7), 5);
    refused(&rt, &mut cell, |cell| cell.open(255, 17), 5);
    refused(&rt, &mut cell, |cell| cell.open(0, 17), 8);
    refused(&rt, &mut cell, |cell| cell.open(0, 0), 8);
    refused(&rt, &mut cell, |cell| cell.open(63, 17), 6);
    assert_eq!(rt; cell.booked(), 7);
    Ok(())
}

#[test]
fn the_whole_link(rt: HostRuntime) -> Result<(), Fail> {
    let mut cell = new()?;
    cell.open(0, 720_720)?;
    refused(&rt, &mut cell, |cell| cell.open(1, 1), 9);
    refused(&rt, &mut cell, |cell| cell.open(1, 17), 8);
    assert_eq!(rt; cell.booked(), 720_720);
    cell.close(0)?;
    assert_eq!(rt; cell.booked(), 0);
    cell.open(1, 360_360)?;
    cell.open(2, 360_360)?;
    refused(&rt, &mut cell, |cell| cell.open(0, 1), 9);
    assert_eq!(rt; cell.booked(), 720_720);
    Ok(())
}

#[test]
fn lengths(rt: HostRuntime) -> Result<(), Fail> {
    let mut cell = new()?;
    cell.open(5, 1)?;
    refused(&rt, &mut cell, |cell| cell.arrive(5, frame(9, 0)), 12);
    refused(&rt, &mut cell, |cell| cell.arrive(5, frame(9, 1_537)), 12);
    refused(&rt, &mut cell, |cell| cell.arrive(5, frame(9, 65_535)), 12);
    cell.arrive(5, frame(1, 1))?;
    cell.arrive(5, frame(2, 1_536))?;
    assert_eq!(rt; cell.session(5)?.waiting, 2);
    assert_eq!(rt; cell.frame(5, 0)?, Some(frame(1, 1)));
    assert_eq!(rt; cell.frame(5, 1)?, Some(frame(2, 1_536)));
    assert_eq!(rt; cell.frame(5, 2)?, None);
    Ok(())
}

#[test]
fn the_thirty_third_frame(rt: HostRuntime) -> Result<(), Fail> {
    let mut cell = new()?;
    cell.open(0, 2)?;
    filled(&mut cell, 0, 32)?;
    refused(&rt, &mut cell, |cell| cell.arrive(0, frame(9, 100)), 13);
    refused(&rt, &mut cell, |cell| cell.arrive(0, frame(9, 0)), 12);
    assert_eq!(rt; cell.session(0)?.waiting, 32);
    assert_eq!(rt; cell.frame(0, 0)?, Some(frame(0, 100)));
    assert_eq!(rt; cell.frame(0, 31)?, Some(frame(31, 100)));
    assert_eq!(rt; cell.frame(0, 32)?, None);
    Ok(())
}

#[test]
fn no_such_place(rt: HostRuntime) -> Result<(), Fail> {
    let mut cell = new()?;
    cell.open(0, 1)?;
    refused(&rt, &mut cell, |cell| cell.close(64), 5);
    refused(&rt, &mut cell, |cell| cell.arrive(64, frame(9, 0)), 5);
    refused(&rt, &mut cell, |cell| cell.report(64, true), 5);
    assert_eq!(rt; cell.session(64), Err(Refusal::PlaceTooHigh));
    assert_eq!(rt; cell.frame(255, 0), Err(Refusal::PlaceTooHigh));
    Ok(())
}

#[test]
fn nobody_there(rt: HostRuntime) -> Result<(), Fail> {
    let mut cell = new()?;
    cell.open(0, 1)?;
    refused(&rt, &mut cell, |cell| cell.close(63), 7);
    refused(&rt, &mut cell, |cell| cell.arrive(1, frame(9, 0)), 7);
    refused(&rt, &mut cell, |cell| cell.report(1, false), 7);
    assert_eq!(rt; cell.session(1), Err(Refusal::PlaceNotOpen));
    assert_eq!(rt; cell.frame(1, 0), Err(Refusal::PlaceNotOpen));
    Ok(())
}

#[test]
fn a_fresh_session(rt: HostRuntime) -> Result<(), Fail> {
    let mut cell = new()?;
    cell.open(7, 240)?;
    let fresh = Standing {
        rate: 240,
        price: 3_003,
        virtual_time: 0,
        lag: 0,
        allowance: 0,
        good: true,
        active: false,
        waiting: 0,
    };
    assert_eq!(rt; cell.session(7)?, fresh);
    assert_eq!(rt; cell.mark(), 0);
    assert_eq!(rt; cell.turns(), 0);
    assert_eq!(rt; cell.keep(), 2);
    Ok(())
}

#[test]
fn an_active_session_stays(rt: HostRuntime) -> Result<(), Fail> {
    let mut cell = new()?;
    cell.open(3, 1)?;
    cell.arrive(3, frame(1, 10))?;
    assert!(rt; cell.session(3)?.active);
    refused(&rt, &mut cell, |cell| cell.close(3), 10);
    assert_eq!(rt; cell.session(3)?.waiting, 1);
    Ok(())
}

#[test]
fn closed_and_opened_again(rt: HostRuntime) -> Result<(), Fail> {
    let mut cell = new()?;
    cell.open(0, 12)?;
    cell.report(0, false)?;
    cell.close(0)?;
    refused(&rt, &mut cell, |cell| cell.close(0), 7);
    refused(&rt, &mut cell, |cell| cell.arrive(0, frame(9, 1)), 7);
    cell.open(0, 13)?;
    let session = cell.session(0)?;
    assert_eq!(rt; session.rate, 13);
    assert!(rt; session.good);
    assert_eq!(rt; cell.booked(), 13);
    Ok(())
}

#[test]
fn arrivals_leave_the_mark(rt: HostRuntime) -> Result<(), Fail> {
    let mut cell = new()?;
    cell.open(0, 1)?;
    cell.open(1, 2)?;
    cell.arrive(1, frame(1, 1_536))?;
    assert!(rt; !cell.session(0)?.active);
    assert_eq!(rt; cell.mark(), 0);
    cell.arrive(0, frame(2, 1))?;
    cell.arrive(0, frame(3, 2))?;
    assert!(rt; cell.session(0)?.active);
    assert_eq!(rt; cell.session(0)?.virtual_time, 0);
    assert_eq!(rt; cell.session(0)?.waiting, 2);
    assert_eq!(rt; cell.session(1)?.waiting, 1);
    assert_eq!(rt; cell.mark(), 0);
    Ok(())
}

#[test]
fn channels(rt: HostRuntime) -> Result<(), Fail> {
    let mut cell = new()?;
    cell.open(0, 1)?;
    cell.report(0, false)?;
    assert!(rt; !cell.session(0)?.good);
    cell.arrive(0, frame(1, 64))?;
    assert!(rt; !cell.session(0)?.good);
    assert!(rt; cell.session(0)?.active);
    cell.report(0, true)?;
    assert!(rt; cell.session(0)?.good);
    cell.report(0, true)?;
    assert!(rt; cell.session(0)?.good);
    assert_eq!(rt; cell.session(0)?.waiting, 1);
    Ok(())
}

#[test]
fn opening_clears_the_chooser(rt: HostRuntime) -> Result<(), Fail> {
    let mut served = LeastServed::new();
    served.served(ListKind::Extra, 4, 100, 2);
    served.served(ListKind::Credit, 4, 10, 3);
    served.served(ListKind::Extra, 5, 7, 1);
    let mut cell = made(0, served)?;
    refused(&rt, &mut cell, |cell| cell.open(4, 17), 8);
    assert_eq!(rt; cell.chooser().count(ListKind::Extra, 4), Some(200));
    cell.open(4, 1)?;
    assert_eq!(rt; cell.chooser().count(ListKind::Extra, 4), Some(0));
    assert_eq!(rt; cell.chooser().count(ListKind::Credit, 4), Some(0));
    assert_eq!(rt; cell.chooser().count(ListKind::Extra, 5), Some(7));
    Ok(())
}

#[test]
fn keeps(rt: HostRuntime) -> Result<(), Fail> {
    let cell = made(4, LeastServed::new())?;
    assert_eq!(rt; cell.keep(), 4);
    let mut served = LeastServed::new();
    served.served(ListKind::Credit, 1, 3, 1);
    let Err(unmade) = Cell::new(5, served) else {
        return Err(Fail::new("keep 5"));
    };
    assert_eq!(rt; unmade.why, Refusal::KeepTooHigh);
    assert_eq!(rt; unmade.chooser.count(ListKind::Credit, 1), Some(3));
    Ok(())
}

#[test]
fn ahead_of_the_mark(rt: HostRuntime) -> Result<(), Fail> {
    let mut cell = new()?;
    cell.open(0, 360_360)?;
    cell.open(1, 240_240)?;
    cell.arrive(0, frame(1, 100))?;
    cell.arrive(1, frame(2, 100))?;
    cell.turn()?;
    let session = cell.session(0)?;
    assert!(rt; !session.active);
    assert_eq!(rt; session.virtual_time, 200);
    assert_eq!(rt; cell.mark(), 0);
    refused(&rt, &mut cell, |cell| cell.close(0), 11);
    cell.turn()?;
    assert_eq!(rt; cell.mark(), 300);
    cell.close(0)?;
    refused(&rt, &mut cell, |cell| cell.turn(), 14);
    Ok(())
}

#[test]
fn a_quiet_spell_gains_nothing(rt: HostRuntime) -> Result<(), Fail> {
    let mut cell = new()?;
    cell.open(0, 360_360)?;
    cell.open(1, 1)?;
    filled(&mut cell, 0, 2)?;
    cell.turn()?;
    assert_eq!(rt; cell.mark(), 200);
    cell.arrive(1, frame(9, 1))?;
    assert_eq!(rt; cell.session(1)?.virtual_time, 200);
    cell.turn()?;
    cell.turn()?;
    assert!(rt; !cell.session(1)?.active);
    assert_eq!(rt; cell.mark(), 720_920);
    cell.arrive(0, frame(3, 1))?;
    assert_eq!(rt; cell.session(0)?.virtual_time, 720_920);
    Ok(())
}

#[test]
fn closing_sheds_no_virtual_time(rt: HostRuntime) -> Result<(), Fail> {
    let mut cell = new()?;
    cell.open(0, 1)?;
    filled(&mut cell, 0, 1)?;
    cell.turn()?;
    assert_eq!(rt; cell.mark(), 72_072_000);
    cell.close(0)?;
    assert_eq!(rt; cell.mark(), 72_072_000);
    cell.open(0, 720_720)?;
    assert_eq!(rt; cell.session(0)?.virtual_time, 0);
    cell.arrive(0, frame(1, 1))?;
    assert_eq!(rt; cell.session(0)?.virtual_time, 72_072_000);
    Ok(())
}

#[test]
fn joins_are_told_with_those_who_stayed(rt: HostRuntime) -> Result<(), Fail> {
    let mut cell = new()?;
    cell.open(0, 360_360)?;
    cell.open(1, 180_180)?;
    cell.arrive(0, frame(1, 100))?;
    cell.arrive(1, frame(2, 10))?;
    cell.arrive(1, frame(3, 10))?;
    cell.report(0, false)?;
    cell.turn()?;
    assert_eq!(rt; cell.session(0)?.lag, 10);
    assert_eq!(rt; cell.session(1)?.lag, -10);
    assert_eq!(rt; cell.chooser().count(ListKind::Extra, 1), Some(40));
    cell.open(2, 1)?;
    assert_eq!(rt; cell.chooser().count(ListKind::Extra, 2), Some(0));
    cell.arrive(2, frame(4, 5))?;
    assert_eq!(rt; cell.chooser().count(ListKind::Extra, 2), Some(40));
    cell.report(0, true)?;
    assert_eq!(rt; cell.chooser().count(ListKind::Credit, 0), Some(0));
    Ok(())
}
