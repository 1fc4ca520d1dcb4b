// What the words after the program's name ask for.
use clap::{Arg, ArgAction, ArgMatches, Command, value_parser};
use hall::{Style, Telling};
use std::alloc::{AllocError, Global};

const KEEP: &str = "keep";

const CHOOSER: &str = "chooser";

const WORDS: &str = "words";

const SUMMARY: &str = "summary";

const STATES: &str = "states";

const KEEPS: [&str; 5] = ["0", "1", "2", "3", "4"];

const CHOOSERS: [&str; 2] = ["least-served", "largest-debt"];

/// The choosers that a cell may have.
#[derive(Clone, Copy, PartialEq, Eq, Debug)]
pub(crate) enum ChooserName {
    LeastServed,
    LargestDebt,
}

impl From<&str> for ChooserName {
    fn from(word: &str) -> ChooserName {
        if word == "largest-debt" {
            ChooserName::LargestDebt
        } else {
            ChooserName::LeastServed
        }
    }
}

// Adds the options to a command.
pub(crate) fn added<'a>(alloc: Global, command: Command<'a>) -> Result<Command<'a>, AllocError> {
    let keep = Arg::new(alloc, KEEP)
        .long("keep")
        .value_name("K")
        .value_parser(KEEPS.as_slice())
        .default_value("2")
        .help("What leading sessions keep of their turns, in quarters");
    let chooser = Arg::new(alloc, CHOOSER)
        .long("chooser")
        .value_name("NAME")
        .value_parser(CHOOSERS.as_slice())
        .default_value("least-served")
        .help("Who picks whom a turn goes to that its owner cannot use");
    let words = Arg::new(alloc, WORDS)
        .long("words")
        .action(ArgAction::SetTrue)
        .help("Tells of each record in words");
    let summary = Arg::new(alloc, SUMMARY)
        .long("summary")
        .action(ArgAction::SetTrue)
        .conflicts_with(WORDS)?
        .help("Sums up what each place got, in place of the lines");
    let states = Arg::new(alloc, STATES)
        .long("states")
        .value_name("N")
        .value_parser(value_parser!(u64).range(1..))
        .help("Prints the state of the cell after every Nth record, and last");
    command
        .arg(keep)?
        .arg(chooser)?
        .arg(words)?
        .arg(summary)?
        .arg(states)
}

pub(crate) fn keep(matches: &ArgMatches<'_>) -> u8 {
    matches.get_one::<u8>(KEEP).unwrap_or(2)
}

pub(crate) fn chooser(matches: &ArgMatches<'_>) -> ChooserName {
    ChooserName::from(matches.get_str(CHOOSER).unwrap_or("least-served"))
}

pub(crate) fn telling(matches: &ArgMatches<'_>) -> Telling {
    let style = if matches.get_flag(SUMMARY) {
        Style::Summary
    } else if matches.get_flag(WORDS) {
        Style::Words
    } else {
        Style::Lines
    };
    Telling {
        style,
        states: matches.get_one::<u64>(STATES),
    }
}
