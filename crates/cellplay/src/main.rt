// Plays a recording into a new cell, and prints the line of each record.
#![tactic(auto)]

use player::play_new;
use std::io;

#[cfg(test)]
mod tests;

fn main(rt: HostRuntime) -> io::Result<()> {
    play_new(rt.alloc(), rt.stdin(), rt.stdout())?;
    Ok(())
}
