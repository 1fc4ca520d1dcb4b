// A recording, played from an input to an output.
ghost use Rattle.std.specs.Prelude.{◌≡◌, IfOk, IfSome, OnOk, is_none};
ghost use Rattle.cell.specs.View.{view};
ghost use Rattle.chooser.specs.Meaning.{meant};
ghost use Rattle.hall.specs.Ends.{end_after};
ghost use Rattle.model.specs.History.{after};
ghost use Rattle.player.specs.Steps.{Leaves, Ran, Stepped, goes_on};
ghost use Rattle.record.specs.Reading.{reading};
ghost use Rattle.recording.specs.Recordings.{recording};
ghost use Rattle.replay.specs.Events.{calls_in};
ghost use Rattle.replay.specs.Playing.{cell_played, outcome_as};

use crate::ending::print_end;
use crate::ends::End;
use crate::hall::Hall;
use crate::telling::Telling;
use answer::Fault;
use record::RECORD;
use recording::{BYTES, Noted, RECORDS, fill};
use replay::{Played, play_record};
use states::Figures;
use std::alloc::Global;
use std::io;
use std::io::{BufReader, BufWriter, Read, Write};

// Tells what became of a record. Says how the play ended, if it did.
fn tell<C: Figures, W: Write>(
    hall: &mut Hall<C>,
    telling: Telling,
    out: &mut W,
    number: u64,
    played: Result<Option<Played<'_>>, Fault>,
) -> io::Result<Option<End>>
    ensures cell { view hall.new.cell ≡ view hall.old.cell }
    ensures goes { IfOk result (λ end. is_none end ≡ goes_on (outcome_as played.entry)) }
    ensures end { IfOk result (λ end. end ≡ end_after number (outcome_as played.entry)) }
{
    match played {
        Ok(Some(played)) => {
            hall.tell(telling, out, number, played)?;
            Ok(None)
        }
        Ok(None) => Ok(Some(End {
            records: number.saturating_sub(1),
            fault: None,
        })),
        Err(fault) => Ok(Some(End {
            records: number,
            fault: Some(fault),
        })),
    }
}

// Plays the next record and tells of it. Says how the play ended, if it did.
fn play_next<C: Figures, R: Read, W: Write>(
    hall: &mut Hall<C>,
    telling: Telling,
    reader: &mut Noted<R>,
    out: &mut W,
    number: u64,
) -> io::Result<Option<End>>
    ensures after { IfSome (R.remaining reader.old.inner) (λ input.
        Stepped result (view hall.old.cell)
        (cell_played (meant C.Chooser) (view hall.old.cell) (reading number input)) (view hall.new.cell)) }
    ensures rest { IfOk result (λ end. IfSome (R.remaining reader.old.inner) (λ input.
        Leaves (reading number input) (is_none end) (R.remaining reader.new.inner))) }
{
    let mut bytes = [0u8; RECORD];
    let size = fill(reader, &mut bytes)?;
    let played = play_record(&mut hall.cell, &bytes[..size], number);
    tell(hall, telling, out, number, played)
}

// Plays the records up to the end of the input, a fault of a record or the limit.
fn play_records<C: Figures, R: Read, W: Write>(
    hall: &mut Hall<C>,
    telling: Telling,
    reader: &mut Noted<R>,
    out: &mut W,
) -> io::Result<End>
    ensures after { IfSome (R.remaining reader.old.inner) (λ input.
        Ran (meant C.Chooser) result (view hall.old.cell)
        (calls_in (recording RECORDS 1 input).events) (view hall.new.cell)) }
{
    for number in 1..RECORDS + 1 {
        if let Some(end) = play_next(hall, telling, reader, out, number)? {
            return Ok(end);
        }
    }
    Ok(End {
        records: RECORDS,
        fault: None,
    })
}

/// Plays the records of an input into a cell and tells of them, up to the end, a fault of a record or a million records. Where it
/// succeeds, all that is told was written out.
pub fn play<C: Figures, R: Read + Drop, W: Write + Drop>(
    alloc: Global,
    hall: &mut Hall<C>,
    telling: Telling,
    input: R,
    out: W,
) -> io::Result<End>
    ensures after { OnOk result (IfSome (R.remaining input) (λ bytes.
        view hall.new.cell ≡
        after (meant C.Chooser) (view hall.old.cell) (calls_in (recording RECORDS 1 bytes).events))) }
{
    let buffered = BufReader::new(alloc, input.take(BYTES))?;
    let mut reader = Noted::new(buffered);
    let mut out = BufWriter::new(alloc, out)?;
    let end = play_records(hall, telling, &mut reader, &mut out)?;
    print_end(&mut out, telling, end, hall)?;
    out.flush()?;
    Ok(end)
}
