//! A cell at the prompt: reads calls and questions, one a line, and tells what the cell answers to each.
#![tactic(auto)]

mod program;
#[cfg(test)]
mod tests;

use program::Hallcalls;
use std::process::ExitCode;

fn main(rt: HostRuntime) -> ExitCode {
    cli::main::<Hallcalls>(&rt)
}
