// A cell that answers line by line.
ghost use Rattle.std.specs.Prelude.{◌≡◌, OnOk, IfOk, IfSome};
ghost use Rattle.std.specs.Io.KnownBytes.{Appends};
ghost use Rattle.cell.specs.View.{view};
ghost use Rattle.chooser.specs.Meaning.{meant};
ghost use Rattle.model.specs.History.{after};
ghost use Rattle.console.specs.Commands.{reading};
ghost use Rattle.console.specs.Talks.{calls_in, goes_on, left_by, line_told, said, told};

use crate::command::{Command, read};
use crate::counted::Counted;
use crate::reply::answer;
use cell::Cell;
use std::alloc::Global;
use std::io;
use std::io::{BufRead, Write};

/// More lines than any input has.
pub const LINES: u64 = u64::MAX;

// Answers one line, in one line or more, or not at all where it asks nothing. Whether the next one is read.
fn tell<C: Counted, W: Write>(cell: &mut Cell<C>, line: &[u8], out: &mut W) -> io::Result<bool>
    ensures told { OnOk result (Appends (W.contents out.old) (W.contents out.new)
        (line_told (meant C.Chooser) C.counts (view cell.old) (reading line.now))) }
    ensures after { view cell.new ≡ left_by (meant C.Chooser) (view cell.old) (reading line.now) }
    ensures goes_on { IfOk result (λ more. more ≡ goes_on (reading line.now)) }
{
    match read(line) {
        Ok(None) => Ok(true),
        Ok(Some(command)) => {
            match answer(cell, command) {
                Ok(reply) => writeln!(out, "{reply}")?,
                Err(refusal) => writeln!(out, "{refusal}")?,
            }
            Ok(command != Command::Quit)
        }
        Err(unknown) => {
            writeln!(out, "{unknown}")?;
            Ok(true)
        }
    }
}

/// Answers the lines of an input on an output, until it ends or a line says `quit`. What a line asks says `read`; a refusal is
/// told in words and changes nothing, and after a line that is no command the next one is read.
pub fn talk<C: Counted, R: BufRead, W: Write>(
    alloc: Global,
    cell: &mut Cell<C>,
    input: &mut R,
    out: &mut W,
) -> io::Result<()>
    ensures told { OnOk result (IfSome (R.remaining input.old) (λ text.
        Appends (W.contents out.old) (W.contents out.new)
        (told (meant C.Chooser) C.counts (view cell.old) (said LINES text)))) }
    ensures after { OnOk result (IfSome (R.remaining input.old) (λ text.
        view cell.new ≡ after (meant C.Chooser) (view cell.old) (calls_in (said LINES text)))) }
{
    let mut line = Vec::new(alloc);
    for _ in 0..LINES {
        line.clear();
        if input.read_until(b'\n', &mut line)? == 0 {
            return Ok(());
        }
        if !tell(cell, &line, out)? {
            return Ok(());
        }
    }
    Ok(())
}
