// A program, from its words to its status.
ghost use Rattle.std.specs.Prelude.{◌≡◌, false, true};
ghost use Rattle.std.specs.Process.{exit_status};
ghost use Rattle.cli.specs.Statuses.{is_shown, is_status, is_told, status_of};

use crate::{FAULTY, Failure, Input, Program, Progress, Reads, Source, status};
use anyhow::Context;
use clap::error::ErrorKind;
use clap::{Arg, Command};
use std::alloc::{AllocError, Global};
use std::convert::AsStr;
use std::io::{IsTerminal, Read, Write};
use std::process::ExitCode;
use std::rt::Files;
use std::{env, fs};

/// The version of all programs.
pub const VERSION: &str = "1.0.0";

const FILE: &str = "FILE";

/// What a program is started with, beside its streams.
#[derive(Clone, Copy)]
pub struct Start<'a, F, S> {
    pub files: &'a F,
    pub alloc: Global,
    /// The words of the command line, the program's name first.
    pub words: &'a [S],
    pub input_is_terminal: bool,
    pub errors_are_terminal: bool,
}

/// Runs a program on the words and streams that the process was started with. It ends with status 0, 1 or 2.
pub fn main<P: Program>(rt: &HostRuntime) -> ExitCode
    ensures { is_status FAULTY (exit_status result) ≡ true }
{
    let (mut output, mut errors) = (rt.stdout(), rt.stderr());
    let status = match words(rt) {
        Ok(words) => {
            let start = Start {
                files: rt,
                alloc: rt.alloc(),
                words: words.as_slice(),
                input_is_terminal: rt.stdin().is_terminal(),
                errors_are_terminal: errors.is_terminal(),
            };
            run::<P, _, _, _, _, _>(start, rt.stdin(), &mut output, &mut errors)
        }
        Err(failure) => ended(P::NAME, FAULTY, Err(failure), &mut output, &mut errors),
    };
    ExitCode::from(status)
}

fn words(rt: &HostRuntime) -> Result<Vec<String>, Failure> {
    Ok(env::args(rt)?.collect(rt.alloc())?)
}

/// Runs a program on an input and two outputs, and answers the status: 0, 1 or 2. What went wrong is told on `errors`.
pub fn run<P: Program, F: Files, S: AsStr, I: Read + Drop, O: Write, E: Write>(
    start: Start<'_, F, S>,
    input: I,
    output: &mut O,
    errors: &mut E,
) -> u8
    ensures { is_status FAULTY result ≡ true }
{
    let outcome = attempt::<P, F, S, I, O, E>(start, input, output, errors);
    ended(P::NAME, FAULTY, outcome, output, errors)
}

fn attempt<P: Program, F: Files, S: AsStr, I: Read + Drop, O: Write, E: Write>(
    start: Start<'_, F, S>,
    input: I,
    output: &mut O,
    errors: &mut E,
) -> Result<(), Failure> {
    let (program, source) = asked::<P, S>(start.alloc, start.words, start.input_is_terminal)?;
    let input = match source {
        Source::Standard => Input::Standard(input),
        Source::File(name) => Input::File(opened(start.files, name)?),
    };
    let told = start.errors_are_terminal && P::READS == Reads::Records;
    let input = Progress::new(P::NAME, input, told, errors);
    program.run(start.alloc, input, output)
}

// The program that the words choose, and what it is to read.
fn asked<'a, P: Program, S: AsStr>(
    alloc: Global,
    words: &'a [S],
    at_terminal: bool,
) -> Result<(P, Source<'a>), Failure> {
    let mut command: Command<'a> = command::<P>(alloc)?;
    let matches = command.try_get_matches_from_mut(words)?;
    let source = Source::named(matches.get_str(FILE));
    if source == Source::Standard && at_terminal && P::READS != Reads::Lines {
        let message = "no FILE, and the standard input is a terminal";
        let error = command.error(ErrorKind::MissingRequiredArgument, message)?;
        return Err(Failure::from(error));
    }
    Ok((P::chosen(&matches), source))
}

fn opened<F: Files>(files: &F, name: &str) -> Result<F::File, Failure> {
    fs::open(files, name)
        .context(format_args!("{name}"))
        .map_err(Failure::Trouble)
}

// What all programs have, and the options of this one.
fn command<'a, P: Program>(alloc: Global) -> Result<Command<'a>, AllocError> {
    let name: &'a str = P::NAME;
    let about: &'a str = P::ABOUT;
    let file = Arg::new(alloc, FILE).help(
        "The file to read; without it, or with -, the standard input",
    );
    let command: Command<'a> = Command::new(alloc, name).version(VERSION).about(about);
    P::options(alloc, command)?.arg(file)
}

// Tells how a program ended, and answers its status.
fn ended<O: Write, E: Write>(
    name: &str,
    faulty: u8,
    outcome: Result<(), Failure>,
    output: &mut O,
    errors: &mut E,
) -> u8
    ensures status { result ≡ status_of faulty outcome }
    ensures known { is_status faulty result ≡ true }
    ensures output { is_shown outcome ≡ false → output.new ≡ output.old }
    ensures errors { is_told outcome ≡ false → errors.new ≡ errors.old }
{
    tell(name, &outcome, output, errors);
    status(faulty, &outcome)
}

// Says on the error output what went wrong, or on the output what was asked for. An error in saying so is not looked at:
// there is nobody left to tell.
fn tell<O: Write, E: Write>(
    name: &str,
    outcome: &Result<(), Failure>,
    output: &mut O,
    errors: &mut E,
)
    ensures output { is_shown outcome.now ≡ false → output.new ≡ output.old }
    ensures errors { is_told outcome.now ≡ false → errors.new ≡ errors.old }
{
    let _ = match outcome {
        Ok(()) | Err(Failure::Closed) => Ok(()),
        Err(Failure::Fault(said) | Failure::Trouble(said)) => writeln!(errors, "{name}: {said:#}"),
        Err(Failure::Words(said)) if said.use_stderr() => write!(errors, "{said}"),
        Err(Failure::Words(said)) => write!(output, "{said}"),
    };
}
