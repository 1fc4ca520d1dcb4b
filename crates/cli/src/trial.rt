// A program run on words and bytes, for its tests.
ghost use Rattle.std.specs.Prelude.{◌≡◌, true};
ghost use Rattle.cli.specs.Statuses.{is_status};

use crate::{FAULTY, Program, Start, run};
use std::alloc::Global;
use std::rt::Files;

/// What comes out of a program: its status, what it wrote, and what it said on the error output.
#[derive(Debug, Drop)]
pub struct Trial {
    pub status: u8,
    pub output: Vec<u8>,
    pub errors: Vec<u8>,
}

/// Runs a program on words, the program's name first, and on the bytes of an input, away from any terminal.
pub fn tried<P: Program, F: Files>(files: &F, alloc: Global, words: &[&str], input: &[u8]) -> Trial
    ensures { is_status FAULTY result.status ≡ true }
{
    let start = Start {
        files,
        alloc,
        words,
        input_is_terminal: false,
        errors_are_terminal: false,
    };
    let mut output = Vec::new(alloc);
    let mut errors = Vec::new(alloc);
    let status = run::<P, _, _, _, _, _>(start, input, &mut output, &mut errors);
    Trial {
        status,
        output,
        errors,
    }
}
