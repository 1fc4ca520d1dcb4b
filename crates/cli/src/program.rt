// What a program says of itself.
use crate::Failure;
use clap::{ArgMatches, Command};
use std::alloc::{AllocError, Global};
use std::io::{Read, Write};

/// What a program reads, which says whether it is asked at a terminal, and how its progress is told.
#[derive(Clone, Copy, Debug, PartialEq, Eq)]
pub enum Reads {
    /// Records of sixteen bytes: nobody types these, and their progress is told.
    Records,
    /// Text that was written before: its usage is told at a terminal.
    Text,
    /// Lines that somebody may type, each answered at once.
    Lines,
}

/// A program: what it is called, its options, and what it does with an input and an output.
pub trait Program: Sized + Drop {
    /// The word by which it is started, at the head of whatever it says on the error output.
    const NAME: &'static str;

    /// What it is for, in a sentence: the first line of its help.
    const ABOUT: &'static str;

    const READS: Reads;

    /// Adds the options of its own to those that all programs have: FILE, `--help` and `--version`.
    fn options<'a>(_alloc: Global, command: Command<'a>) -> Result<Command<'a>, AllocError> {
        Ok(command)
    }

    /// The program with the options that the words chose.
    fn chosen(matches: &ArgMatches<'_>) -> Self;

    /// All that it does, from the first byte of the input to the last of the output.
    fn run<R: Read + Drop, W: Write + Drop>(
        &self,
        alloc: Global,
        input: R,
        output: W,
    ) -> Result<(), Failure>;
}
