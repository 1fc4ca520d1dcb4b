// The program: its options, and a recording played as they ask.
use crate::options;
use crate::options::ChooserName;
use cell::Cell;
use clap::{ArgMatches, Command};
use cli::{Failure, Program, Reads};
use hall::{End, Hall, Telling, play};
use largest_debt::LargestDebt;
use least_served::LeastServed;
use recording::RECORDS;
use states::Figures;
use std::alloc::{AllocError, Global};
use std::io::{Read, Write};

/// A keep, a chooser, and what is to be told.
#[derive(Clone, Copy, PartialEq, Eq, Debug)]
pub(crate) struct HallPlay {
    keep: u8,
    chooser: ChooserName,
    telling: Telling,
}

impl Program for HallPlay {
    const NAME: &'static str = "hallplay";

    const ABOUT: &'static str = "Plays a recording into a cell, and tells of it";

    const READS: Reads = Reads::Records;

    fn options<'a>(alloc: Global, command: Command<'a>) -> Result<Command<'a>, AllocError> {
        options::added(alloc, command)
    }

    fn chosen(matches: &ArgMatches<'_>) -> HallPlay {
        HallPlay {
            keep: options::keep(matches),
            chooser: options::chooser(matches),
            telling: options::telling(matches),
        }
    }

    fn run<R: Read + Drop, W: Write + Drop>(
        &self,
        alloc: Global,
        input: R,
        output: W,
    ) -> Result<(), Failure> {
        match self.chooser {
            ChooserName::LeastServed => {
                play_into(alloc, *self, LeastServed::new(), input, output)
            }
            ChooserName::LargestDebt => play_into(alloc, *self, LargestDebt, input, output),
        }
    }
}

// Plays a recording into a new cell with this chooser.
fn play_into<C: Figures + Drop, R: Read + Drop, W: Write + Drop>(
    alloc: Global,
    program: HallPlay,
    chooser: C,
    input: R,
    output: W,
) -> Result<(), Failure> {
    let cell = match Cell::new(program.keep, chooser) {
        Ok(cell) => cell,
        Err(unmade) => return Err(Failure::Fault(anyhow::Error::from(unmade.why))),
    };
    let mut hall = Hall::new(cell);
    ended(play(alloc, &mut hall, program.telling, input, output)?)
}

// An end before the input was all read is a failure.
fn ended(end: End) -> Result<(), Failure> {
    match end.fault {
        Some(fault) => Err(Failure::Fault(anyhow::Error::from(fault))),
        None if end.records == RECORDS => Err(Failure::Fault(anyhow::anyhow!(
            "{RECORDS} records were played, and nothing past them was read"
        ))),
        None => Ok(()),
    }
}
