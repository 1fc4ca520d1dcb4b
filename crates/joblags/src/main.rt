//! Plays a recording into a cell, and prints how its places stand: at the end, and after every Nth record if asked.
#![tactic(auto)]

mod asked;
mod balance;
mod due;
mod end;
mod play;
mod program;
mod sheet;
#[cfg(test)]
mod tests;

use program::JobLags;
use std::process::ExitCode;

fn main(rt: HostRuntime) -> ExitCode {
    cli::main::<JobLags>(&rt)
}
