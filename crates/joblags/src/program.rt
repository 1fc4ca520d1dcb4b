// The program.
ghost use Rattle.std.specs.Prelude.{codes};
ghost use Rattle.clap.specs.Words.{found_of, one_text};
ghost use Rattle.joblags.specs.Words.{AskedFor};

use crate::asked::{EVERY, every};
use crate::end::ended;
use crate::play::play_through;
use clap::{Arg, ArgMatches, Command, value_parser};
use cli::{Failure, Program, Reads};
use least_served::LeastServed;
use replay::new_cell;
use std::alloc::{AllocError, Global};
use std::io::{Read, Write};
use std::num::NonZeroU64;

// Job sheets: at the end, and after every so many records if asked.
#[derive(Drop)]
pub(crate) struct JobLags {
    every: Option<NonZeroU64>,
}

impl Program for JobLags {
    const NAME: &'static str = "joblags";

    const ABOUT: &'static str =
        "Plays a recording into a cell, and prints job sheets: how each open place stands";

    const READS: Reads = Reads::Records;

    fn options<'a>(alloc: Global, command: Command<'a>) -> Result<Command<'a>, AllocError> {
        let every = Arg::new(alloc, EVERY)
            .long(EVERY)
            .value_name("N")
            .value_parser(value_parser!(u64))
            .help("Prints a sheet after every Nth record too");
        command.arg(every)
    }

    fn chosen(matches: &ArgMatches<'_>) -> JobLags
        ensures { AskedFor (one_text (found_of matches.now) (codes "every")) result.every }
    {
        JobLags {
            every: every(matches),
        }
    }

    fn run<R: Read + Drop, W: Write + Drop>(
        &self,
        alloc: Global,
        input: R,
        output: W,
    ) -> Result<(), Failure> {
        let mut cell = new_cell(LeastServed::new());
        let (_, end) = play_through(alloc, &mut cell, self.every, input, output)?;
        ended(end)
    }
}
