//! What all programs share: the command line, the input that it names, the status that a program ends with, errors in
//! words, and the progress of long work. A program is a type with an `impl Program`, and its `main` is
//! `fn main(rt: HostRuntime) -> ExitCode { cli::main::<Name>(&rt) }`.
#![tactic(auto)]

mod failure;
mod hall;
mod input;
mod program;
mod progress;
mod start;
#[cfg(test)]
mod tests;
mod trial;

pub use failure::{FAULTY, Failure, status};
pub use hall::{ChooserName, Hall};
pub use input::{Input, Source};
pub use program::{Program, Reads};
pub use progress::{Progress, RECORD, STEP};
pub use start::{Start, VERSION, main, run};
pub use trial::{Trial, tried};
