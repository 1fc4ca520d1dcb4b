// A whole recording, from an input to an output.
ghost use Rattle.std.specs.Prelude.{◌≡◌, IfOk, IfSome, OnOk};
ghost use Rattle.std.specs.Io.KnownBytes.{Appends};
ghost use Rattle.cell.specs.View.{view};
ghost use Rattle.least_served.specs.Served.{unserved};
ghost use Rattle.model.specs.Calls.{new};
ghost use Rattle.model.specs.History.{after};
ghost use Rattle.chooser.specs.Meaning.{meant};
ghost use Rattle.least_served.specs.Meaning.{least_served_meaning};
ghost use Rattle.player.specs.Lines.{lines_of};
ghost use Rattle.recording.specs.Recordings.{recording};
ghost use Rattle.replay.specs.Events.{calls_in};
ghost use Rattle.served_cell.specs.Promised.{Promised};

use crate::buffered::play_out;
use cell::Cell;
use chooser::Chooser;
use recording::{BYTES, Noted, RECORDS};
use replay::KEEP;
use served_cell::new_cell;
use std::alloc::Global;
use std::io;
use std::io::{BufReader, BufWriter, Read, Write};

/// Plays the records of an input into a cell, and prints the line of each, up to the end, a fault of a record or a million
/// records. The output comes back with all of the lines written out; an error of reading or writing comes back as that error.
pub fn play<C: Chooser, R: Read + Drop, W: Write + Drop>(
    alloc: Global,
    cell: &mut Cell<C>,
    input: R,
    out: W,
) -> io::Result<W>
    ensures lines { IfOk result (λ printed. IfSome (R.remaining input) (λ bytes.
        Appends (W.contents out) (W.contents printed)
        (lines_of (meant C.Chooser) (view cell.old) (recording RECORDS 1 bytes)))) }
    ensures after { OnOk result (IfSome (R.remaining input) (λ bytes.
        view cell.new ≡ after (meant C.Chooser) (view cell.old) (calls_in (recording RECORDS 1 bytes).events))) }
{
    let reader = BufReader::new(alloc, input.take(BYTES))?;
    let writer = BufWriter::new(alloc, out)?;
    let mut writer = Noted::new(writer);
    play_out(cell, &mut Noted::new(reader), &mut writer)?;
    let (out, _) = writer.inner.into_parts();
    Ok(out)
}

/// Plays the records of an input into a new cell, of keep 2 and with a new least served, and prints the line of each.
pub fn play_new<R: Read + Drop, W: Write + Drop>(alloc: Global, input: R, out: W) -> io::Result<W>
    ensures lines { IfOk result (λ printed. IfSome (R.remaining input) (λ bytes.
        Appends (W.contents out) (W.contents printed)
        (lines_of least_served_meaning (new KEEP unserved) (recording RECORDS 1 bytes)))) }
    ensures promised { Promised (new KEEP unserved) }
{
    let mut cell = new_cell(KEEP).unwrap();
    play(alloc, &mut cell, input, out)
}
