// What the program does.
use cell::Cell;
use clap::{ArgMatches, Command};
use cli::{ChooserName, Failure, Hall, Program, Reads};
use console::{Counted, talk};
use largest_debt::LargestDebt;
use least_served::LeastServed;
use std::alloc::{AllocError, Global};
use std::io::{BufReader, Read, Write};

/// The program, with the cell that its words chose.
#[derive(Drop)]
pub(crate) struct Hallcalls {
    hall: Hall,
}

impl Program for Hallcalls {
    const NAME: &'static str = "hallcalls";

    const ABOUT: &'static str =
        "A cell at the prompt: calls and questions, one a line; `help` lists them";

    const READS: Reads = Reads::Lines;

    fn options<'a>(alloc: Global, command: Command<'a>) -> Result<Command<'a>, AllocError> {
        Hall::options(alloc, command)
    }

    fn chosen(matches: &ArgMatches<'_>) -> Hallcalls {
        Hallcalls {
            hall: Hall::chosen(matches),
        }
    }

    fn run<R: Read + Drop, W: Write + Drop>(
        &self,
        alloc: Global,
        input: R,
        output: W,
    ) -> Result<(), Failure> {
        match self.hall.chooser {
            ChooserName::LeastServed => talk_to(
                self.hall.keep,
                LeastServed::new(),
                alloc,
                input,
                output,
            ),
            ChooserName::LargestDebt => talk_to(self.hall.keep, LargestDebt, alloc, input, output),
        }
    }
}

// Talks to a new cell.
fn talk_to<C: Counted + Drop, R: Read + Drop, W: Write + Drop>(
    keep: u8,
    chooser: C,
    alloc: Global,
    input: R,
    output: W,
) -> Result<(), Failure> {
    let mut cell = Cell::new(keep, chooser).map_err(|unmade| Failure::Fault(anyhow::Error::from(
        unmade.why,
    )))?;
    let mut input = BufReader::new(alloc, input)?;
    let mut output = output;
    talk(alloc, &mut cell, &mut input, &mut output)?;
    Ok(())
}
