//! Makes a million turns over 64 sessions that always wait on good channels, and says on the error
//! output how long that took.
#![tactic(auto)]

use cell::Cell;
use chooser::{Chooser, PLACES};
use least_served::LeastServed;
use queue::Frame;
use std::io;
use std::time::Instant;

const TURNS: u32 = 1_000_000;

// 65 such rates fill the link.
const RATE: u32 = 11_088;

const LENGTH: u16 = 1_000;

// Every place opens, with two frames. A refusal is not looked at, here and below: it would show in
// the turns and the mark.
fn fill<C: Chooser>(cell: &mut Cell<C>) {
    for place in 0..PLACES as u8 {
        let _ = cell.open(place, RATE);
        for _ in 0..2 {
            let _ = cell.arrive(place, frame(0));
        }
    }
}

// Whoever sent has a new frame at once.
fn refill<C: Chooser>(cell: &mut Cell<C>, tag: u32) {
    if let Ok(turn) = cell.turn()
        && let Some(sent) = turn.sent
    {
        let _ = cell.arrive(sent.sender, frame(tag));
    }
}

fn frame(tag: u32) -> Frame {
    Frame {
        tag,
        length: LENGTH,
    }
}

fn main(rt: HostRuntime) -> io::Result<()> {
    let mut cell = Cell::new(2, LeastServed::new()).unwrap();
    fill(&mut cell);
    let start = Instant::now(&rt)?;
    for n in 0..TURNS {
        refill(&mut cell, n);
    }
    let seconds = start.elapsed(&rt)?.as_secs_f64();
    println!(rt; "{} turns, mark {}", cell.turns(), cell.mark())?;
    eprintln!(rt;
        "{seconds:.3} s, {:.0} turns a second",
        f64::from(TURNS) / seconds
    )
}
