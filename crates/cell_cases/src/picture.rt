// All that the questions tell of a cell, to be compared before and after a call.
use cell::{Cell, Standing};
use chooser::{ListKind, PLACES};
use least_served::LeastServed;
use queue::{Frame, ROOM};
use std::array;

#[derive(Clone, Copy, PartialEq, Eq, Debug)]
pub struct Place {
    session: Option<Standing>,
    frames: [Option<Frame>; ROOM],
    // what the chooser holds of it, for each list
    credit: Option<u64>,
    extra: Option<u64>,
}

#[derive(Clone, Copy, PartialEq, Eq, Debug)]
pub struct Picture {
    places: [Place; PLACES],
    mark: u64,
    booked: u32,
    turns: u32,
    keep: u8,
}

fn look_at(cell: &Cell<LeastServed>, at: u8) -> Place {
    let held = cell.chooser();
    Place {
        session: cell.session(at).ok(),
        frames: array::from_fn(|i| cell.frame(at, i).ok().flatten()),
        credit: held.count(ListKind::Credit, usize::from(at)),
        extra: held.count(ListKind::Extra, usize::from(at)),
    }
}

pub(crate) fn look(cell: &Cell<LeastServed>) -> Picture {
    Picture {
        places: array::from_fn(|at| look_at(cell, at as u8)),
        mark: cell.mark(),
        booked: cell.booked(),
        turns: cell.turns(),
        keep: cell.keep(),
    }
}
