//! Makes a recording of text: of each line the record of the event that it says.
#![tactic(auto)]

mod make;
mod making;
#[cfg(test)]
mod tests;
mod unmade;

use make::RecMake;
use std::process::ExitCode;

fn main(rt: HostRuntime) -> ExitCode {
    cli::main::<RecMake>(&rt)
}
