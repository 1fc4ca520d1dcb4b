//! Prints a recording in words, event by event, and what it adds up to.
#![tactic(auto)]

mod end;
mod form;
mod list;
mod program;
mod tally;
#[cfg(test)]
mod tests;
mod words;

use program::RecList;
use std::process::ExitCode;

fn main(rt: HostRuntime) -> ExitCode {
    cli::main::<RecList>(&rt)
}
