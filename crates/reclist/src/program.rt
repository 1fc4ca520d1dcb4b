// The program.
use crate::end::ended;
use crate::form::Form;
use crate::list::list_all;
use clap::{Arg, ArgAction, ArgMatches, Command};
use cli::{Failure, Program, Reads};
use std::alloc::{AllocError, Global};
use std::io::{Read, Write};

// Prints a recording in words.
#[derive(Drop)]
pub(crate) struct RecList {
    form: Form,
}

impl Program for RecList {
    const NAME: &'static str = "reclist";

    const ABOUT: &'static str =
        "Prints a recording in words, event by event, and what it adds up to";

    const READS: Reads = Reads::Records;

    fn options<'a>(alloc: Global, command: Command<'a>) -> Result<Command<'a>, AllocError> {
        let plain = Arg::new(alloc, "plain")
            .long("plain")
            .action(ArgAction::SetTrue)
            .help("Prints the words of the events alone, as recmake reads them");
        command.arg(plain)
    }

    fn chosen(matches: &ArgMatches<'_>) -> RecList {
        let form = if matches.get_flag("plain") {
            Form::Plain
        } else {
            Form::Numbered
        };
        RecList { form }
    }

    fn run<R: Read + Drop, W: Write + Drop>(
        &self,
        alloc: Global,
        input: R,
        output: W,
    ) -> Result<(), Failure> {
        let (_, end) = list_all(alloc, input, output, self.form)?;
        ended(end)
    }
}
