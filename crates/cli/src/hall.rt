// The cell that a program makes.
ghost use Rattle.std.specs.Prelude.{◌≡◌, codes, IfOk};
ghost use Rattle.clap.specs.Words.{app_of, first_value, found_of, one_text};
ghost use Rattle.cli.specs.Choosing.{AddsCell, IsOption, KeepAsked, chooser_asked};

use clap::{Arg, ArgMatches, Command};
use std::alloc::{AllocError, Global};

const KEEP: &str = "keep";

const CHOOSER: &str = "chooser";

fn keep_option<'a>(alloc: Global) -> Arg<'a>
    ensures { IsOption (codes "keep") (codes "2") result }
{
    Arg::new(alloc, KEEP)
        .long(KEEP)
        .value_name("QUARTERS")
        .value_parser(clap::value_parser!(u8).range(0..=4))
        .default_value("2")
        .help("What a leading session keeps of its own turns")
}

fn chooser_option<'a>(alloc: Global) -> Arg<'a>
    ensures { IsOption (codes "chooser") (codes "least-served") result }
{
    Arg::new(alloc, CHOOSER)
        .long(CHOOSER)
        .value_name("NAME")
        .value_parser(["least-served", "largest-debt"].as_slice())
        .default_value("least-served")
        .help("Who gets a turn that its owner can't use")
}

/// The choosers that the words can name.
#[derive(Clone, Copy, PartialEq, Eq, Debug, Default)]
pub enum ChooserName {
    #[default]
    LeastServed,
    LargestDebt,
}

/// The cell that a program makes: its keep in quarters, and its chooser.
#[derive(Clone, Copy, PartialEq, Eq, Debug)]
pub struct Hall {
    pub keep: u8,
    pub chooser: ChooserName,
}

impl Hall {
    /// Adds `--keep` and `--chooser` to a command line.
    pub fn options<'a>(alloc: Global, command: Command<'a>) -> Result<Command<'a>, AllocError>
        ensures { IfOk result (λ added. AddsCell (app_of command.entry) (app_of added)) }
    {
        command.arg(keep_option(alloc))?.arg(chooser_option(alloc))
    }

    /// The cell that the words choose: of keep 2 and with least served where they say nothing else.
    pub fn chosen(matches: &ArgMatches<'_>) -> Hall
        ensures keep { KeepAsked (one_text (found_of matches.now) (codes "keep")) result.keep }
        ensures chooser { result.chooser ≡
            chooser_asked (first_value (found_of matches.now) (codes "chooser")) }
    {
        let chooser = match matches.get_str(CHOOSER) {
            Some("largest-debt") => ChooserName::LargestDebt,
            _ => ChooserName::LeastServed,
        };
        Hall {
            keep: matches.get_one::<u8>(KEEP).unwrap_or(2),
            chooser,
        }
    }
}
