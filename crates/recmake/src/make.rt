// The program.
ghost use Rattle.std.specs.Prelude.{◌≡◌, IfErr, IfSome, OnOk};
ghost use Rattle.recmake.specs.Failing.{IsAtFault, IsFault, Writes};
ghost use Rattle.recmake.specs.Making.{lines_of};

use crate::making::records_of;
use clap::ArgMatches;
use cli::{Failure, Program, Reads};
use std::alloc::Global;
use std::io::{Read, Write};

// Makes the recording of all that is read, and writes it. Where a line is no event, nothing is written.
pub(crate) fn make<R: Read, W: Write>(
    alloc: Global,
    input: &mut R,
    output: &mut W,
) -> Result<(), Failure>
    ensures made { OnOk result (IfSome (R.remaining input.old) (λ text.
        Writes (lines_of text) (W.contents output.old) (W.contents output.new))) }
    ensures fault { IfErr result (λ failure. IsFault failure → IfSome (R.remaining input.old) (λ text.
        IsAtFault (lines_of text) failure)) }
    ensures unwritten { IfErr result (λ failure. IsFault failure → output.new ≡ output.old) }
{
    let mut text = Vec::new(alloc);
    input.read_to_end(&mut text)?;
    let records = records_of(alloc, &text)?;
    output.write_all(&records)?;
    Ok(())
}

// Makes a recording of text.
#[derive(Drop)]
pub(crate) struct RecMake;

impl Program for RecMake {
    const NAME: &'static str = "recmake";

    const ABOUT: &'static str =
        "Makes a recording of text: the sixteen bytes of the event that each line says";

    const READS: Reads = Reads::Text;

    fn chosen(_matches: &ArgMatches<'_>) -> RecMake {
        RecMake
    }

    fn run<R: Read + Drop, W: Write + Drop>(
        &self,
        alloc: Global,
        input: R,
        output: W,
    ) -> Result<(), Failure> {
        let mut input = input;
        let mut output = output;
        make(alloc, &mut input, &mut output)
    }
}
