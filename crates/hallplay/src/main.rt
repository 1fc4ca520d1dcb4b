// Plays a recording into a cell of any keep and chooser, and tells of it.
#![tactic(auto)]

mod options;
mod program;
#[cfg(test)]
mod tests;

use program::HallPlay;
use std::process::ExitCode;

fn main(rt: HostRuntime) -> ExitCode {
    cli::main::<HallPlay>(&rt)
}
