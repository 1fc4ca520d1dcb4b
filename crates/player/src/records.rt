// The records of an input, played one after the other.
ghost use Rattle.std.specs.Prelude.{IfOk, IfSome};
ghost use Rattle.cell.specs.View.{view};
ghost use Rattle.chooser.specs.Meaning.{meant};
ghost use Rattle.player.specs.Lines.{lines_of};
ghost use Rattle.player.specs.Steps.{Leaves, Ran, Stepped, line_of};
ghost use Rattle.record.specs.Reading.{reading};
ghost use Rattle.recording.specs.Failures.{Fails, Puts};
ghost use Rattle.recording.specs.Recordings.{recording};
ghost use Rattle.recording.specs.Taking.{TakesUpTo};
ghost use Rattle.replay.specs.Events.{calls_in};
ghost use Rattle.replay.specs.Playing.{cell_played, outcome_of};

use crate::tell::tell;
use cell::Cell;
use chooser::Chooser;
use record::RECORD;
use recording::{BYTES, Noted, RECORDS, fill};
use replay::play_record;
use std::io;
use std::io::{Read, Write};

// Plays the next record and prints its line. Says whether there may be a next one.
fn play_next<C: Chooser, R: Read, W: Write>(
    cell: &mut Cell<C>,
    reader: &mut Noted<R>,
    out: &mut Noted<W>,
    number: u64,
) -> io::Result<bool>
    ensures line { IfSome (R.remaining reader.old.inner) (λ input.
        Puts (W.contents out.old.inner) (W.contents out.new.inner)
        (line_of number (outcome_of (meant C.Chooser) (view cell.old) (reading number input))) result) }
    ensures reads { TakesUpTo RECORD (R.remaining reader.old.inner) (R.remaining reader.new.inner) }
    ensures failure { Fails reader.old.failure reader.new.failure out.old.failure out.new.failure result }
    ensures after { IfSome (R.remaining reader.old.inner) (λ input.
        Stepped result (view cell.old) (cell_played (meant C.Chooser) (view cell.old) (reading number input)) (view cell.new)) }
    ensures rest { IfOk result (λ goes. IfSome (R.remaining reader.old.inner) (λ input.
        Leaves (reading number input) goes (R.remaining reader.new.inner))) }
{
    let mut bytes = [0u8; RECORD];
    let size = fill(reader, &mut bytes)?;
    tell(out, number, play_record(cell, &bytes[..size], number))
}

/// Plays the records up to the end of the input, a fault of a record or the limit, and prints a line for each. Where it fails,
/// a front of the lines was printed, the cell is that after the first calls, and the error is that of the read or write.
pub fn play_records<C: Chooser, R: Read, W: Write>(
    cell: &mut Cell<C>,
    reader: &mut Noted<R>,
    out: &mut Noted<W>,
) -> io::Result<()>
    ensures lines { IfSome (R.remaining reader.old.inner) (λ input.
        Puts (W.contents out.old.inner) (W.contents out.new.inner)
        (lines_of (meant C.Chooser) (view cell.old) (recording RECORDS 1 input)) result) }
    ensures reads { TakesUpTo BYTES (R.remaining reader.old.inner) (R.remaining reader.new.inner) }
    ensures failure { Fails reader.old.failure reader.new.failure out.old.failure out.new.failure result }
    ensures after { IfSome (R.remaining reader.old.inner) (λ input.
        Ran (meant C.Chooser) result (view cell.old) (calls_in (recording RECORDS 1 input).events) (view cell.new)) }
{
    for number in 1..RECORDS + 1 {
        if !play_next(cell, reader, out, number)? {
            break;
        }
    }
    Ok(())
}
