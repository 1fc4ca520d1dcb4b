// Which places have been open.
use crate::Got;
use answer::{Answer, Refusal};
use cell::Standing;
use record::Event;
use replay::Played;
use std::process::Abort;

const PLACE: u8 = 5;

// A session that has just been opened.
const FRESH: Standing = Standing {
    rate: 18,
    price: 40_040,
    virtual_time: 0,
    lag: 0,
    allowance: 0,
    good: true,
    active: false,
    waiting: 0,
};

fn opened(answer: Result<Answer, Refusal>) -> Played<'static> {
    let event = Event::Open {
        place: PLACE,
        rate: 18,
        note: b"",
    };
    Played {
        event,
        result: answer,
    }
}

fn closed() -> Played<'static> {
    let event = Event::Close {
        place: PLACE,
        note: b"",
    };
    let result = Ok(Answer::Done);
    Played { event, result }
}

fn frame_refused() -> Played<'static> {
    let event = Event::Arrive {
        place: PLACE,
        length: 100,
        tag: 1,
        note: b"",
    };
    let result = Err(Refusal::PlaceNotOpen);
    Played { event, result }
}

#[test]
fn open_from_its_opening_on(rt: HostRuntime) {
    let open = Got::new().after(PLACE, opened(Ok(Answer::Done)), Ok(FRESH));
    assert!(rt; open.was_open());
    let gone = open.after(PLACE, closed(), Err(Refusal::PlaceNotOpen));
    assert!(rt; gone.was_open());
}

#[test]
fn never_open(rt: HostRuntime) {
    assert!(rt; !Got::new().was_open());
    let not_open = Err(Refusal::PlaceNotOpen);
    let refused = Got::new().after(PLACE, frame_refused(), not_open);
    assert_eq!(rt; refused.refused, 1);
    assert!(rt; !refused.was_open());
    let overbooked = opened(Err(Refusal::LinkOverbooked));
    assert!(rt; !refused.after(PLACE, overbooked, not_open).was_open());
}

// Of a session that was opened before the count began, the standing alone says nothing.
#[test]
fn only_its_own_accepted_opening_counts(rt: HostRuntime) {
    let again = opened(Err(Refusal::PlaceOpen));
    assert!(rt; !Got::new().after(PLACE, again, Ok(FRESH)).was_open());
    let elsewhere = opened(Ok(Answer::Done));
    assert!(rt; !Got::new().after(PLACE + 1, elsewhere, Ok(FRESH)).was_open());
}
