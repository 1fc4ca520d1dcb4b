//! Two places open, a frame waits, and a turn is given away.
#![tactic(auto)]

use cell::Cell;
use least_served::LeastServed;
use queue::Frame;

fn main(rt: HostRuntime) -> anyhow::Result<()> {
    let mut cell = Cell::new(2, LeastServed::new())?;
    cell.open(0, 360_360)?;
    cell.open(1, 240_240)?;
    cell.arrive(
        1,
        Frame {
            tag: 7,
            length: 100,
        },
    )?;
    let turn = cell.turn()?;
    if let Some(sent) = turn.sent {
        println!(rt;
            "place {} sends frame {}, {} bytes",
            sent.sender, sent.tag, turn.length
        )?;
    }
    Ok(())
}
